//! Classes of occurrences, which are spelled together, at places of documents.
ghost use Rattle.std.specs.Prelude.{◌≡◌, ◌<◌, ◌&&◌, List, length, map, true, IfOk};
ghost use Rattle.std.specs.Ordering.{is_lt};
ghost use Rattle.std.specs.FinMap.{entries};
ghost use Rattle.std.specs.List.{All};
ghost use Rattle.scheme_model.specs.Entries.{same_occ};
ghost use Rattle.scheme_model.specs.Spelling.{is_joined};
ghost use Rattle.program_answers.specs.AskedOf.{IsSource, own_prefixes};
ghost use Rattle.read_documents.specs.Readings.{Read};
ghost use Rattle.program_answers.specs.Classed.{IsClassAt, IsClassOf, IsLongest, bare_part, head_of, prefix_cmp, standard_for};
ghost use Rattle.program_answers.specs.ToldAnswers.{facts_in, has_bars, name_there};

use crate::asked::Asked;
use arrow_index::classes::ClassPart as BarePart;
use ls_base::{Items, Mem, Pos, Text};
use scheme_model::Occ;

/// A member of a class, a prefix behind which it takes its characters, and whether it stands between bars.
#[derive(Drop)]
pub struct ClassPart {
    pub occ: Occ,
    pub prefix: Text,
    pub bars: bool,
}

/// The class of an occurrence: the longest of its own prefixes, of those of one length the last in byte order, the first in byte order
/// of the standard names that spell it, and each prefix of each member.
#[derive(Drop)]
pub struct Class {
    pub at: Occ,
    pub prefix: Text,
    pub standard: Option<Text>,
    pub parts: Items<ClassPart>,
}

/// The class of the identifier at a position. `None` exactly where none stands there, or no link joins it.
pub fn class_at(asked: &Asked<'_>, uri: &str, position: Pos) -> Mem<Option<Class>>
    ensures { (rs : List Read) → IsSource asked.now.texts.now rs asked.now.index.now →
        IfOk result (IsClassAt (entries asked.now.texts.now) (facts_in rs) (name_there asked.now.encoding (entries asked.now.texts.now) rs uri.now position)) }
{
    let Some(occ) = asked.name_there(uri, position) else {
        return Ok(None);
    };
    if !asked.is_joined(occ) {
        return Ok(None);
    }
    let class = class_of(asked, occ)?;
    Ok(Some(class))
}

/// The class of an occurrence.
fn class_of(asked: &Asked<'_>, occ: Occ) -> Mem<Class>
    requires { 0 < length (entries asked.now.texts.now) }
    ensures { (rs : List Read) → IsSource asked.now.texts.now rs asked.now.index.now → is_joined (facts_in rs).links occ ≡ true →
        IfOk result (IsClassOf (entries asked.now.texts.now) (facts_in rs) occ) }
{
    let parts = asked.parts(occ)?;
    let prefix = Text::of(asked.alloc, longest(parts.as_slice(), occ))?;
    let names = asked.standard_of(parts.as_slice())?;
    let standard = first_of(names.as_slice())?;
    let placed = with_bars(asked, parts)?;
    Ok(Class {
        at: occ,
        prefix,
        standard,
        parts: placed,
    })
}

/// The longest prefix of an occurrence, and of those of one length the last in byte order.
fn longest(parts: &[BarePart], occ: Occ) -> &str
    ensures { IsLongest (own_prefixes parts.now occ) result.now }
{
    let mut longest = "";
    for part in parts {
        if is_longer(part, occ, longest) {
            longest = part.prefix.as_str();
        }
    }
    longest
}

/// Whether a prefix is shorter than another, or as long and before it in byte order.
fn is_shorter(prefix: &str, other: &str) -> bool
    ensures { result ≡ is_lt (prefix_cmp prefix.now other.now) }
{
    prefix
        .len()
        .cmp(&other.len())
        .then(prefix.cmp(other))
        .is_lt()
}

/// Whether a part is of an occurrence, with a prefix that is longer than another, or as long and behind it in byte order.
fn is_longer(part: &BarePart, occ: Occ, prefix: &str) -> bool
    ensures { result ≡ (same_occ part.now.occ occ && is_lt (prefix_cmp prefix.now part.now.prefix)) }
{
    part.occ == occ && is_shorter(prefix, part.prefix.as_str())
}

/// Parts with whether their members stand between bars.
fn with_bars(asked: &Asked<'_>, parts: Items<BarePart>) -> Mem<Items<ClassPart>>
    requires { 0 < length (entries asked.now.texts.now) }
    ensures same { IfOk result (λ all. map bare_part all ≡ parts) }
    ensures bars { (rs : List Read) → IsSource asked.now.texts.now rs asked.now.index.now →
        IfOk result (All (λ p. p.bars ≡ has_bars (entries asked.now.texts.now) ((facts_in rs).bytes p.occ))) }
{
    let mut all = Items::new(asked.alloc);
    for BarePart { occ, prefix } in parts.into_vec() {
        let bars = asked.texts.has_bars(asked.texts.bytes_of(occ));
        all.push(ClassPart { occ, prefix, bars })?;
    }
    Ok(all)
}

/// The standard name of the class at a position that is first in byte order. `None` exactly where the class has none, or no
/// identifier stands there.
pub fn standard_at(asked: &Asked<'_>, uri: &str, position: Pos) -> Mem<Option<Text>>
    ensures { (rs : List Read) → IsSource asked.now.texts.now rs asked.now.index.now →
        IfOk result (λ name. name ≡ standard_for (facts_in rs) (name_there asked.now.encoding (entries asked.now.texts.now) rs uri.now position)) }
{
    let Some(occ) = asked.name_there(uri, position) else {
        return Ok(None);
    };
    let names = asked.standard_names(occ)?;
    let first = first_of(names.as_slice())?;
    Ok(first)
}

/// A copy of the first of names.
fn first_of(names: &[Text]) -> Mem<Option<Text>>
    ensures { IfOk result (λ first. first ≡ head_of names.now) }
{
    match names.first() {
        Some(name) => Ok(Some(name.clone()?)),
        None => Ok(None),
    }
}
