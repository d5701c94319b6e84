//! Two programs over one table of trees and symbols, and a unit of both.
use alpha_equal::numbers::Numbers;
use core_tree::units::{Program, Unit};
use syntax_tree::trees::Work;

/// Two programs, with the numbers of their definitions.
#[derive(Drop)]
pub struct Programs<'a> {
    pub work: &'a Work,
    pub old: &'a Program,
    pub new: &'a Program,
    pub old_numbers: Numbers,
    pub new_numbers: Numbers,
}

/// A unit of both, by its place in their lists.
#[derive(Clone, Copy)]
pub struct Both<'a> {
    pub place: usize,
    pub old: &'a Unit,
    pub new: &'a Unit,
}
