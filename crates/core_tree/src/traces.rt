//! What an expansion meets on its way, and why it ends early.
ghost use Rattle.std.specs.Prelude.{◌≡◌, []};

use crate::cores::{Binder, Target};
use form_notes::Noting;
use ls_base::{Items, Text};
use scheme_model::Occ;
use std::alloc::Global;
use syntax_tree::symbols::IdNo;

/// A macro use: its keyword, and the leaves of the form that met a literal.
#[derive(Drop)]
pub struct MacroUse {
    pub keyword: Target,
    pub literals: Vec<Target>,
}

/// What the expansion of a form met, in order: what the form defines in its unit, keywords of core forms and macro uses; and what the
/// form noted of its questions.
#[derive(Drop)]
pub struct Trace {
    pub definitions: Items<Binder>,
    pub keywords: Items<Target>,
    pub uses: Items<MacroUse>,
    pub notes: Noting,
}

/// The fault of a form that is broken: its code, the identifier that it names, with that identifier's place, the place of the form
/// that was read where it was found, and the text of a `syntax-error`.
#[derive(Drop)]
pub struct FormFault {
    pub code: u32,
    pub name: Option<IdNo>,
    pub occ: Option<Occ>,
    pub here: Option<Occ>,
    pub text: Option<Text>,
}

/// A trace of nothing.
pub fn blank_trace(alloc: Global) -> Trace
    ensures definitions { result.definitions ≡ [] }
    ensures keywords { result.keywords ≡ [] }
    ensures uses { result.uses ≡ [] }
    ensures notes { result.notes.notes ≡ [] }
{
    Trace {
        definitions: Items::new(alloc),
        keywords: Items::new(alloc),
        uses: Items::new(alloc),
        notes: Noting::new(alloc),
    }
}
