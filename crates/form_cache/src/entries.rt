//! What is kept of a form (R7RS 5.3).
ghost use Rattle.std.specs.Prelude.{◌≡◌, [], map, IfOk};
ghost use Rattle.form_cache.specs.Copied.{use_told};

use core_tree::cores::{Binder, Target};
use core_tree::traces::{MacroUse, Trace};
use declared_parts::DeclaredPart;
use form_notes::Noting;
use form_parts::items::Left;
use ls_base::{Items, Mem};
use std::alloc::Global;
use syntax_tree::trees::Tree;
use unit_scopes::Budget;

/// What a form had counted and met when it was gone through, before what it set aside was expanded.
#[derive(Drop)]
pub struct Declared {
    pub counts: Budget,
    pub keywords: Items<Target>,
    pub uses: Items<MacroUse>,
}

/// A form, and what came of it but for what its unit has of it: how many definitions its unit had before it, where it was gone through, what
/// that left, nothing where it broke, what it made in its unit, and what it had counted in the end.
#[derive(Drop)]
pub struct Entry {
    pub tree: Tree,
    pub before: u64,
    pub declared: Declared,
    pub left: Option<Left>,
    pub part: DeclaredPart,
    pub counts: Budget,
}

impl Declared {
    /// What a form has counted and met by now.
    pub fn of(alloc: Global, counts: Budget, trace: &Trace) -> Mem<Declared>
        ensures counts { IfOk result (λ declared. declared.counts ≡ counts) }
        ensures keywords { IfOk result (λ declared. declared.keywords ≡ trace.now.keywords) }
        ensures uses { IfOk result (λ declared. map use_told declared.uses ≡ map use_told trace.now.uses) }
    {
        let keywords = Vec::from_slice(alloc, trace.keywords.as_slice())?;
        let uses = copy_of_uses(alloc, trace.uses.as_slice())?;
        Ok(Declared {
            counts,
            keywords: Items::from_vec(keywords),
            uses,
        })
    }

    /// A trace with which the form goes on from there: what it had met, with what it defines, and no notes.
    pub fn trace(&self, alloc: Global, definitions: &[Binder]) -> Mem<Trace>
        ensures definitions { IfOk result (λ trace. trace.definitions ≡ definitions.now) }
        ensures keywords { IfOk result (λ trace. trace.keywords ≡ self.now.keywords) }
        ensures uses { IfOk result (λ trace. map use_told trace.uses ≡ map use_told self.now.uses) }
        ensures notes { IfOk result (λ trace. trace.notes.notes ≡ []) }
    {
        let definitions = Vec::from_slice(alloc, definitions)?;
        let keywords = Vec::from_slice(alloc, self.keywords.as_slice())?;
        let uses = copy_of_uses(alloc, self.uses.as_slice())?;
        Ok(Trace {
            definitions: Items::from_vec(definitions),
            keywords: Items::from_vec(keywords),
            uses,
            notes: Noting::new(alloc),
        })
    }
}

/// Copies of macro uses.
fn copy_of_uses(alloc: Global, uses: &[MacroUse]) -> Mem<Items<MacroUse>>
    ensures { IfOk result (λ copy. map use_told copy ≡ map use_told uses.now) }
{
    let mut copy = Items::new(alloc);
    for met in uses {
        copy.push(copy_of_use(alloc, met)?)?;
    }
    Ok(copy)
}

/// A copy of a macro use.
fn copy_of_use(alloc: Global, met: &MacroUse) -> Mem<MacroUse>
    ensures { IfOk result (λ copy. use_told copy ≡ use_told met.now) }
{
    Ok(MacroUse {
        keyword: met.keyword,
        literals: Vec::from_slice(alloc, met.literals.as_slice())?,
    })
}
