//! Templates (R7RS 4.3.2): where their ellipses stand, whether a variable drives each, and whether each variable stands under
//! enough of them.
ghost use Rattle.std.specs.Prelude.{◌≡◌, ℕ, false, ◌||◌, max, is_some, Option};
ghost use Rattle.std.specs.BTreeMap.{get};
ghost use Rattle.std.specs.Ordering.{nat_cmp};
ghost use Rattle.scheme_model.specs.Trees.{Tree as ModelTree, Trees, Tail};
ghost use Rattle.scheme_model.specs.RulesShape.{Rules as ModelRules, dots_of, escape_of};
ghost use Rattle.scheme_model.specs.Ident.{Ident as Identifier};
ghost use Rattle.syntax_tree.specs.Looks.{PartsStand, EndStands, AreStanding, EndIsStanding};
ghost use Rattle.syntax_tree.specs.Macros.{identifiers, TellsRoles};
ghost use Rattle.syntax_tree.specs.Works.{StandsFor};
ghost use Rattle.rules_check.specs.Templates.{dots_where, of_template, of_list, of_parts, first_of, seen_name, Sees, HasDepths, CanSee, CanSeeParts, CanSeeEnd};

use std::collections::BTreeMap;
use syntax_tree::look::{Look, look_at, place_of};
use syntax_tree::rules::{Named, Roles};
use syntax_tree::symbols::IdNo;
use syntax_tree::trees::{Tree, Work};

/// What was seen of a template: whether an ellipsis has nothing before it or is a tail, whether no variable drives one, the most
/// ellipses under which a variable of it stands in the pattern, and the first variable that stands under too few.
#[derive(Clone, Copy)]
pub struct Seen {
    pub misplaced: bool,
    pub idle: bool,
    pub deepest: u32,
    pub shallow: Option<Named>,
}

/// Nothing of note.
const NOTHING: Seen = Seen {
    misplaced: false,
    idle: false,
    deepest: 0,
    shallow: None,
};

/// Sees a template that is at most `left` nodes deep and stands under `level` ellipses. In an escape, ellipses are identifiers.
#[cycle(template)]
pub fn see(
    work: &Work,
    roles: &Roles,
    depths: &BTreeMap<IdNo, u32>,
    tree: Tree,
    escaped: bool,
    level: u32,
    left: u32,
) -> Seen
    requires { CanSee work.now tree level left }
    ensures { (r : ModelRules Identifier) (depth : Identifier → Option ℕ) (t : ModelTree Identifier) →
        TellsRoles work.now.symbols roles.now r → HasDepths work.now depths.now depth → StandsFor work.now tree t →
        Sees work.now result (of_template (dots_where escaped r) depth t level) }
{
    match look_at(work, tree) {
        Look::Name(ident) => {
            let occ = place_of(work, tree);
            see_name(depths, Named { ident, occ }, level)
        }
        Look::Atom(_) => NOTHING,
        Look::Vector(items) => see_list(work, roles, depths, items, None, escaped, level, left - 1),
        Look::List(items, end) => {
            if !escaped && is_escape(work, roles, items, end) {
                inside(see_list(work, roles, depths, items, end, true, level, left - 1))
            } else {
                see_list(work, roles, depths, items, end, escaped, level, left - 1)
            }
        }
    }
}

/// Sees the parts and the tail of a list.
#[cycle(template)]
fn see_list(
    work: &Work,
    roles: &Roles,
    depths: &BTreeMap<IdNo, u32>,
    items: &[Tree],
    end: Option<Tree>,
    escaped: bool,
    level: u32,
    left: u32,
) -> Seen
    requires parts { CanSeeParts work.now items.now level left }
    requires tail { CanSeeEnd work.now end level left }
    ensures { (r : ModelRules Identifier) (depth : Identifier → Option ℕ) (ts : Trees Identifier) (tail : Tail Identifier) →
        TellsRoles work.now.symbols roles.now r → HasDepths work.now depths.now depth → PartsStand work.now items.now ts →
        EndStands work.now end tail → Sees work.now result (of_list (dots_where escaped r) depth ts tail level) }
{
    let parts = see_parts(work, roles, depths, items, escaped, level, left);
    let last = match end {
        None => NOTHING,
        Some(tail) => see(work, roles, depths, tail, escaped, level, left),
    };
    let mut seen = join(parts, last);
    if !escaped && (roles.dots_at(work, items, 0) || roles.is_dots_end(work, end)) {
        seen.misplaced = true;
    }
    seen
}

/// Sees the parts of a list or a vector, from the last to the first.
#[cycle(template)]
fn see_parts(
    work: &Work,
    roles: &Roles,
    depths: &BTreeMap<IdNo, u32>,
    items: &[Tree],
    escaped: bool,
    level: u32,
    left: u32,
) -> Seen
    requires parts { CanSeeParts work.now items.now level left }
    ensures { (r : ModelRules Identifier) (depth : Identifier → Option ℕ) (ts : Trees Identifier) →
        TellsRoles work.now.symbols roles.now r → HasDepths work.now depths.now depth → PartsStand work.now items.now ts →
        Sees work.now result (of_parts (dots_where escaped r) depth ts level) }
{
    let mut seen = NOTHING;
    let mut behind = 0;
    for k in (0..items.len()).rev() {
        let part = see(work, roles, depths, items[k], escaped, level + behind, left);
        let dots = !escaped && roles.is_dots(work, items[k]);
        let idle = !dots && behind > 0 && part.deepest < level + behind;
        seen = join(part, seen);
        seen.idle = seen.idle || idle;
        behind = if dots { behind + 1 } else { 0 };
    }
    seen
}

/// What was seen of one part and of those behind it.
fn join(first: Seen, rest: Seen) -> Seen
    ensures misplaced { result.misplaced ≡ (first.misplaced || rest.misplaced) }
    ensures idle { result.idle ≡ (first.idle || rest.idle) }
    ensures deepest { result.deepest ≡ max first.deepest rest.deepest }
    ensures shallow { result.shallow ≡ first_of first.shallow rest.shallow }
{
    Seen {
        misplaced: first.misplaced || rest.misplaced,
        idle: first.idle || rest.idle,
        deepest: first.deepest.max(rest.deepest),
        shallow: first.shallow.or(rest.shallow),
    }
}

/// In an escape no ellipsis is misplaced, and none is idle.
fn inside(seen: Seen) -> Seen
    ensures { result ≡ record seen { misplaced = false; idle = false } }
{
    Seen {
        misplaced: false,
        idle: false,
        ..seen
    }
}

/// Sees an identifier.
fn see_name(depths: &BTreeMap<IdNo, u32>, name: Named, level: u32) -> Seen
    ensures { result ≡ seen_name name (get nat_cmp depths.now name.ident) level }
{
    match depths.get(&name.ident) {
        None => NOTHING,
        Some(depth) => Seen {
            misplaced: false,
            idle: false,
            deepest: *depth,
            shallow: if *depth <= level { None } else { Some(name) },
        },
    }
}

/// Whether a list is `(... template)`.
pub fn is_escape(work: &Work, roles: &Roles, items: &[Tree], end: Option<Tree>) -> bool
    requires parts { AreStanding work.now items.now }
    requires tail { EndIsStanding work.now end }
    ensures { (r : ModelRules Identifier) (ts : Trees Identifier) (tail : Tail Identifier) → TellsRoles work.now.symbols roles.now r →
        PartsStand work.now items.now ts → EndStands work.now end tail →
        result ≡ is_some (escape_of (dots_of identifiers r) ts tail) }
{
    items.len() == 2 && end.is_none() && roles.is_dots(work, items[0])
}
