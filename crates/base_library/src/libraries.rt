//! The standard libraries by the texts of their names (R7RS Appendix A).
ghost use Rattle.std.specs.Prelude.{◌≡◌, ℕ, List, IfOk, map};
ghost use Rattle.std.specs.Option.{option_map};
ghost use Rattle.scheme_model.specs.Requirements.{LibraryName};
ghost use Rattle.scheme_model.specs.StandardLibraries.{standard};
ghost use Rattle.base_library.specs.Texts.{names_of, SpellsStandard};

use crate::names;
use ls_base::{Items, Mem, Text};
use std::alloc::Global;

/// The names of a standard library, in their order, by the text of the library's name: its parts in parentheses, with one space
/// between each two. There are none exactly where no standard library has this name.
pub fn standard(alloc: Global, name: &str) -> Mem<Option<Items<Text>>>
    ensures names { IfOk result (λ names. names ≡ names_of name.now) }
    ensures library { (spelled : LibraryName → List ℕ) → SpellsStandard spelled → (n : LibraryName) → name.now ≡ spelled n →
        IfOk result (λ names. names ≡ standard n) }
{
    match table_of(name) {
        None => Ok(None),
        Some(names) => Ok(Some(texts(alloc, names)?)),
    }
}

/// The table of the names of a standard library.
fn table_of(name: &str) -> Option<&'static [&'static str]>
    ensures { option_map (λ names. map (λ s. s.now) names.now) result ≡ names_of name.now }
{
    match name {
        "(scheme base)" => Some(&names::BASE),
        "(scheme case-lambda)" => Some(&names::CASE_LAMBDA),
        "(scheme char)" => Some(&names::CHAR),
        "(scheme complex)" => Some(&names::COMPLEX),
        "(scheme cxr)" => Some(&names::CXR),
        "(scheme eval)" => Some(&names::EVAL),
        "(scheme file)" => Some(&names::FILE),
        "(scheme inexact)" => Some(&names::INEXACT),
        "(scheme lazy)" => Some(&names::LAZY),
        "(scheme load)" => Some(&names::LOAD),
        "(scheme process-context)" => Some(&names::PROCESS_CONTEXT),
        "(scheme read)" => Some(&names::READ),
        "(scheme repl)" => Some(&names::REPL),
        "(scheme time)" => Some(&names::TIME),
        "(scheme write)" => Some(&names::WRITE),
        _ => None,
    }
}

/// Texts of these names.
fn texts(alloc: Global, names: &[&str]) -> Mem<Items<Text>>
    ensures { IfOk result (λ texts. texts ≡ map (λ s. s.now) names.now) }
{
    let mut texts = Items::new(alloc);
    for name in names {
        texts.push(Text::of(alloc, name)?)?;
    }
    Ok(texts)
}
