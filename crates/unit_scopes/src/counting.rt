//! Counts within their budgets, and the faults of forms that name an identifier.
ghost use Rattle.std.specs.Prelude.{◌≡◌, ◌≤◌};
ghost use Rattle.unit_scopes.specs.Told.{core_fault, told};
ghost use Rattle.unit_scopes.specs.Counts.{named_fault, Counts, Begins};

use crate::scope::UnitScope;
use core_forms::{CoreFault, NamePart};
use core_tree::traces::FormFault;
use feature_requirements::fault::{ExpandFault, code, fails};
use scheme_model::Occ;

/// The most nodes of a form.
pub const MAX_NODES: u32 = 200_000;

/// A fault that names an identifier, in a form that was read at a place.
pub fn fails_at(here: Option<Occ>, code: u32, name: NamePart) -> ExpandFault
    ensures { result ≡ named_fault here code name }
{
    ExpandFault::At(FormFault {
        code,
        name: Some(name.ident),
        occ: name.occ,
        here,
        text: None,
    })
}

impl UnitScope {
    /// Counts nodes of the form at work.
    #[inline(always)]
    pub fn count(&mut self, here: Option<Occ>, nodes: u32) -> Result<(), ExpandFault>
        requires { self.old.form.budget.nodes ≤ 200000 }
        ensures { Counts self.old self.new here nodes result }
    {
        let left = MAX_NODES - self.form.budget.nodes;
        if nodes > left {
            return Err(fails(here, code::NODE_BUDGET));
        }
        self.form.budget.nodes += nodes;
        Ok(())
    }

    /// Begins a core node that counts so many, where so much depth is left: what is left for its parts.
    #[inline(always)]
    pub fn begin_node(
        &mut self,
        here: Option<Occ>,
        nodes: u32,
        depth: u32,
    ) -> Result<u32, ExpandFault>
        requires { self.old.form.budget.nodes ≤ 200000 }
        ensures { Begins self.old self.new here nodes depth result }
    {
        if depth == 0 {
            return Err(fails(here, code::DEPTH_BUDGET));
        }
        self.count(here, nodes)?;
        Ok(depth - 1)
    }
}

/// The fault of a core form that was misread.
pub fn misread(here: Option<Occ>, fault: CoreFault) -> ExpandFault
    ensures { result ≡ told here (core_fault fault) }
{
    match fault {
        CoreFault::BadForm => fails(here, code::BAD_FORM),
        CoreFault::DuplicateBinder(name) => fails_at(here, code::DUPLICATE_BINDER, name),
        CoreFault::BadPlace => fails(here, code::BAD_PLACE),
        CoreFault::BadRecord => fails(here, code::BAD_RECORD),
        CoreFault::BadQuasi => fails(here, code::BAD_QUASI),
        CoreFault::Memory => ExpandFault::Memory,
    }
}
