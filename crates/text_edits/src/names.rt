//! The new names of the members of a class, and of the tokens of a document that are members.
ghost use Rattle.std.specs.Prelude.{◌≡◌, ◌==◌, ℕ, List, ◌++◌, map, None, Some, false, true, IfNone, IfOk, IfSome, OnOk, if◌then◌else◌};
ghost use Rattle.std.specs.BTreeMap.{get};
ghost use Rattle.std.specs.Option.{option_map};
ghost use Rattle.std.specs.Ordering.{nat_cmp};
ghost use Rattle.std.specs.Str.{chars, IsUtf8};
ghost use Rattle.scheme_model.specs.declared.Occ.{Occ as AnyOcc};
ghost use Rattle.scheme_model.specs.Entries.{same_occ};
ghost use Rattle.scheme_model.specs.Sites.{or_else};
ghost use Rattle.scheme_tokens.specs.Lexical.{IsIdentifier};
ghost use Rattle.text_edits.specs.Members.{name_at, stem_of};
ghost use Rattle.text_edits.specs.NewNames.{is_reserved};
ghost use Rattle.text_edits.specs.Views.{first_at, identifier_by, occ_cmp};

use ls_base::{Mem, Text};
use scheme_model::Occ;
use scheme_tokens::ident_of;
use std::alloc::Global;
use std::collections::BTreeMap;

/// The members of a class with their new names.
pub type Members = BTreeMap<Occ, Text>;

/// New names of the tokens of a document, by the numbers of the tokens.
pub type TokenNames = BTreeMap<usize, Text>;

/// Whether a symbol is empty, an ellipsis or an underscore.
fn is_reserved(name: &str) -> bool
    ensures { result ≡ is_reserved name.now }
{
    name.is_empty() || name == "..." || name == "_"
}

/// The symbol of a new name. `None` where the text isn't one identifier and nothing else, or where its symbol is empty, `...` or `_`.
pub fn new_symbol(alloc: Global, text: &str) -> Mem<Option<Text>>
    ensures some { IfOk result (λ symbol. IfSome symbol (λ name. IsUtf8 name × IsIdentifier (chars name) (chars text.now) × (is_reserved name ≡ false))) }
    ensures none { IfOk result (λ symbol. IfNone symbol ((name : List ℕ) → IsUtf8 name → IsIdentifier (chars name) (chars text.now) → is_reserved name ≡ true)) }
{
    let Some(symbol) = ident_of(alloc, text)? else {
        return Ok(None);
    };
    if is_reserved(symbol.as_str()) {
        Ok(None)
    } else {
        Ok(Some(symbol))
    }
}

/// The new stem: a new name without the prefix of the identifier that is renamed. `None` where it doesn't begin with the prefix, or
/// nothing is left.
pub fn stem_of<'a>(prefix: &str, name: &'a str) -> Option<&'a str>
    ensures { option_map (λ stem. stem.now) result ≡ stem_of prefix.now name.now }
{
    match name.strip_prefix(prefix) {
        None => None,
        Some(stem) => { if stem.is_empty() { None } else { Some(stem) } }
    }
}

/// Adds a member, whose new name is its prefix with the stem behind it. One that is there keeps its name.
pub fn add_member(
    alloc: Global,
    members: &mut Members,
    occ: Occ,
    prefix: &str,
    stem: &str,
) -> Mem<()>
    ensures { OnOk result ((o : AnyOcc) → get occ_cmp members.new o ≡ or_else (get occ_cmp members.old o) (if same_occ occ o then Some (prefix.now ++ stem.now) else None)) }
{
    if members.contains_key(&occ) {
        return Ok(());
    }
    let mut name = String::from_str(alloc, prefix)?;
    name.push_str(stem)?;
    members.insert(occ, Text::from_string(name))?;
    Ok(())
}

/// The number of the first token of a form, and 0 where there is no such form.
fn first_of(firsts: &[u32], form: u32) -> u32
    ensures { result ≡ first_at firsts.now form }
{
    match firsts.get(form as usize) {
        Some(first) => *first,
        None => 0,
    }
}

/// Notes the new name of an identifier at the number of its token, where it is a member. A token that has one keeps it.
fn note_name(names: &mut TokenNames, members: &Members, occ: Occ, firsts: &[u32]) -> Mem<()>
    ensures { OnOk result ((n : ℕ) → get nat_cmp names.new n
        ≡ or_else (get nat_cmp names.old n) (if (identifier_by firsts.now occ).token == n then get occ_cmp members.now occ else None)) }
{
    let Some(name) = members.get(&occ) else {
        return Ok(());
    };
    let token = first_of(firsts, occ.form) as usize + occ.token as usize;
    if names.contains_key(&token) {
        return Ok(());
    }
    let name = name.clone()?;
    names.insert(token, name)?;
    Ok(())
}

/// The new name of a token.
pub fn name_of(names: &TokenNames, token: usize) -> Option<&Text>
    ensures { option_map (λ name. name.now) result ≡ get nat_cmp names.now token }
{
    names.get(&token)
}

/// Notes the new names of those identifiers of a unit that are members, at the numbers of their tokens in the document. The numbers of
/// the first tokens of the unit's forms are told beside them.
pub fn note_names(
    names: &mut TokenNames,
    members: &Members,
    identifiers: &[Occ],
    firsts: &[u32],
) -> Mem<()>
    ensures { OnOk result ((n : ℕ) → get nat_cmp names.new n
        ≡ or_else (get nat_cmp names.old n) (name_at (λ o. get occ_cmp members.now o) (map (identifier_by firsts.now) identifiers.now) n)) }
{
    for occ in identifiers {
        note_name(names, members, *occ, firsts)?;
    }
    Ok(())
}
