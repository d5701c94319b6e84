//! The heads of forms (R7RS 4.1, 4.3): the identifier at a head, and the keywords of core forms and the auxiliary ones.
ghost use Rattle.std.specs.Prelude.{◌≡◌, ◌<◌, List, Some, None, false, Option, true};
ghost use Rattle.scheme_model.specs.Ident.{Ident as Identifier};
ghost use Rattle.scheme_model.specs.Meaning.{Head as ModelHead, is_keyword};
ghost use Rattle.scheme_model.specs.Keywords.{core_named, auxiliary_named};
ghost use Rattle.core_forms.specs.Ends.{keyword_as};
ghost use Rattle.std.specs.Option.{option_map, option_map_or};
ghost use Rattle.form_parts.specs.Heads.{auxiliary_as, IsHead};
ghost use Rattle.scheme_model.specs.Trees.{Tree as ModelTree, list, tree};
ghost use Rattle.scheme_model.specs.Order.{rules_parts_of};
ghost use Rattle.syntax_tree.specs.Works.{StandsFor, IsStanding};
ghost use Rattle.form_parts.specs.FormsSeen.{IsRulesHead, head_name_of, takes_effect};
ghost use Rattle.core_forms.specs.Parts.{IsNameIfAny};

use crate::names::name_at;
use core_forms::{CoreKeyword, NamePart};
use syntax_tree::look::{Look, look_at};
use syntax_tree::symbols::IdNo;
use syntax_tree::texts::same_text;
use syntax_tree::trees::{Tree, Work};

/// A keyword that stands within other forms alone.
#[derive(Clone, Copy)]
pub enum Auxiliary {
    SyntaxRules,
    Unquote,
    UnquoteSplicing,
    Other,
}

/// What the head of a form is: the keyword of a core form, an auxiliary keyword, a macro, or no keyword.
#[derive(Clone, Copy)]
pub enum Head {
    Core(CoreKeyword),
    Auxiliary(Auxiliary),
    Macro,
    Other,
}

impl Head {
    /// Whether it is a keyword of any kind.
    pub fn is_keyword(self) -> bool
        ensures { (h : ModelHead) → IsHead self h → result ≡ is_keyword h }
    {
        match self {
            Head::Core(_) | Head::Auxiliary(_) | Head::Macro => true,
            Head::Other => false,
        }
    }
}

/// The keyword of a core form, by its name in the standard libraries.
pub fn core_named(name: &str) -> Option<CoreKeyword>
    ensures { option_map keyword_as result ≡ option_map Some (core_named name.now) }
{
    match name {
        _ if same_text(name, "quote") => Some(CoreKeyword::Quote),
        _ if same_text(name, "quasiquote") => Some(CoreKeyword::Quasiquote),
        _ if same_text(name, "lambda") => Some(CoreKeyword::Lambda),
        _ if same_text(name, "case-lambda") => Some(CoreKeyword::CaseLambda),
        _ if same_text(name, "if") => Some(CoreKeyword::If),
        _ if same_text(name, "set!") => Some(CoreKeyword::Set),
        _ if same_text(name, "begin") => Some(CoreKeyword::Begin),
        _ if same_text(name, "define") => Some(CoreKeyword::Define),
        _ if same_text(name, "define-values") => Some(CoreKeyword::DefineValues),
        _ if same_text(name, "define-record-type") => Some(CoreKeyword::DefineRecordType),
        _ if same_text(name, "define-syntax") => Some(CoreKeyword::DefineSyntax),
        _ if same_text(name, "let-syntax") => Some(CoreKeyword::LetSyntax),
        _ if same_text(name, "letrec-syntax") => Some(CoreKeyword::LetrecSyntax),
        _ if same_text(name, "cond-expand") => Some(CoreKeyword::CondExpand),
        _ if same_text(name, "syntax-error") => Some(CoreKeyword::SyntaxError),
        _ if same_text(name, "include") => Some(CoreKeyword::Include),
        _ if same_text(name, "include-ci") => Some(CoreKeyword::IncludeCi),
        _ => None,
    }
}

/// An auxiliary keyword, by its name in the standard libraries.
pub fn auxiliary_named(name: &str) -> Option<Auxiliary>
    ensures { option_map auxiliary_as result ≡ auxiliary_named name.now }
{
    match name {
        _ if same_text(name, "syntax-rules") => Some(Auxiliary::SyntaxRules),
        _ if same_text(name, "unquote") => Some(Auxiliary::Unquote),
        _ if same_text(name, "unquote-splicing") => Some(Auxiliary::UnquoteSplicing),
        _ if same_text(name, "else") => Some(Auxiliary::Other),
        _ if same_text(name, "=>") => Some(Auxiliary::Other),
        _ if same_text(name, "...") => Some(Auxiliary::Other),
        _ if same_text(name, "_") => Some(Auxiliary::Other),
        _ => None,
    }
}

/// The head of a list of rules, where it has one that is an identifier.
pub fn rules_head(work: &Work, rules: Tree) -> Option<IdNo>
    requires { IsStanding work.now rules }
    ensures { (t : ModelTree Identifier) → StandsFor work.now rules t → IsRulesHead work.now.symbols result (rules_parts_of t) }
{
    match look_at(work, rules) {
        Look::List(items, _) => match items.first() {
            None => None,
            Some(first) => match look_at(work, *first) {
                Look::Name(ident) => Some(ident),
                Look::Atom(_) => None,
                Look::List(_, _) => None,
                Look::Vector(_) => None,
            },
        },
        Look::Name(_) => None,
        Look::Atom(_) => None,
        Look::Vector(_) => None,
    }
}

/// The first part of a list, where it is an identifier.
#[inline(always)]
pub fn head_name(work: &Work, tree: Tree) -> Option<NamePart>
    requires { IsStanding work.now tree }
    ensures { (t : ModelTree Identifier) → StandsFor work.now tree t → IsNameIfAny work.now result (head_name_of t) }
{
    match look_at(work, tree) {
        Look::List(items, _) => match items.first() {
            None => None,
            Some(first) => name_at(work, *first),
        },
        Look::Name(_) => None,
        Look::Atom(_) => None,
        Look::Vector(_) => None,
    }
}

/// Whether a core form takes effect while forms are gone through.
pub fn is_passed(core: CoreKeyword) -> bool
    ensures { result ≡ option_map_or takes_effect (keyword_as core) false }
{
    match core {
        CoreKeyword::Begin
        | CoreKeyword::CondExpand
        | CoreKeyword::Define
        | CoreKeyword::DefineValues
        | CoreKeyword::DefineRecordType
        | CoreKeyword::DefineSyntax => true,
        _ => false,
    }
}
