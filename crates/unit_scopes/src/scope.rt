//! What an expansion knows of units: their scopes, their macros, and what the open unit defines.

use crate::asked::Asked;
use crate::macros::Macros;
use core_tree::traces::Trace;
use scope_env::{Env, ScopeNo};
use std::alloc::Global;
use std::collections::{BTreeMap, BTreeSet};
use syntax_tree::meaning::Meaning;
use syntax_tree::symbols::{IdNo, SymNo};
use syntax_tree::units::UnitKind;

/// A symbol that a unit imports, and what it means.
#[derive(Clone, Copy)]
pub struct Imported {
    pub symbol: SymNo,
    pub meaning: Meaning,
}

/// How far a form has counted: its macro uses, its nodes, and its locals, of which `locals` is the next one's number.
#[derive(Clone, Copy)]
pub struct Budget {
    pub uses: u32,
    pub nodes: u32,
    pub locals: u64,
}

/// The form that is at work: its number, what it has counted, and what it met.
#[derive(Drop)]
pub struct FormAtWork {
    pub number: u32,
    pub budget: Budget,
    pub trace: Trace,
}

/// The scopes and the macros of all units so far. One unit is open: its number and kind, its own scope, the libraries that there are,
/// which identifiers it defines, each as a keyword or not, and what was asked of these.
#[derive(Drop)]
pub struct UnitScope {
    pub alloc: Global,
    pub env: Env,
    pub macros: Macros,
    pub unit: u32,
    pub kind: UnitKind,
    pub root: ScopeNo,
    pub libraries: BTreeSet<String>,
    pub defined: BTreeMap<IdNo, bool>,
    pub asked: Asked,
    pub form: FormAtWork,
}
