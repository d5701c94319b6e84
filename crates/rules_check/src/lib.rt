//! The shapes of the rules of a macro (R7RS 4.3.2).
#![tactic(auto)]

ghost use Rattle.scheme_model.specs.Trees.{Tree as ModelTree};
ghost use Rattle.scheme_model.specs.Ident.{Ident as Identifier};
ghost use Rattle.syntax_tree.specs.Works.{StandsFor, IsStanding};
ghost use Rattle.rules_check.specs.Checked.{rules_in_form, Checks};

use std::alloc::Global;
use syntax_tree::rules::{Roles, Rules};
use syntax_tree::trees::{Tree, Work};

mod fault;
mod leaf;
mod pattern;
mod reading;
mod rule;
mod template;

pub use fault::RulesFault;
pub use leaf::{RuleLeaf, leaves, unplaced_leaves};

/// The rules that a list `(syntax-rules ..)` has, or the first fault: the shapes of the whole list come first, and then the rules
/// in order. The list's first part isn't looked at.
pub fn check(alloc: Global, work: &Work, tree: Tree) -> Result<Rules, RulesFault>
    requires { IsStanding work.now tree }
    ensures { (t : ModelTree Identifier) → StandsFor work.now tree t → Checks work.now (rules_in_form t) result }
{
    let rules = reading::read_rules(alloc, work, tree)?;
    let roles = Roles::of(alloc, rules.ellipsis, rules.literals.as_slice())?;
    rule::check_rules(alloc, work, &roles, rules.rules.as_slice())?;
    Ok(rules)
}
