//! Definitions of a unit are taken back (R7RS 5.3), the last one first.
ghost use Rattle.std.specs.Prelude.{List, ◌∷◌, reverse};
ghost use Rattle.unit_scopes.specs.declared.scope.UnitScope.{UnitScope as AnyUnits};
ghost use Rattle.declared_parts.specs.Undone.{AreDefined, Defines, IsBack};

use scope_env::ScopeNo;
use syntax_tree::meaning::Meaning;
use syntax_tree::symbols::IdNo;
use unit_scopes::UnitScope;

/// A definition in the open unit: its identifier, what the unit's own scope bound it to before, and whether it is a keyword's.
#[derive(Clone, Copy)]
pub struct Made {
    pub ident: IdNo,
    pub before: Option<Meaning>,
    pub keyword: bool,
}

/// Takes definitions back. It takes no memory.
pub fn take_back(units: &mut UnitScope, made: Vec<Made>)
    requires { (old : AnyUnits) × AreDefined old units.old (reverse made.items) }
    ensures { (old : AnyUnits) → AreDefined old units.old (reverse made.items) → IsBack old units.new }
{
    let mut left = made;
    while let Some(last) = left.pop() {
        take_one(units, last);
    }
}

/// Takes the last definition back.
fn take_one(units: &mut UnitScope, made: Made)
    requires { (before : AnyUnits) × Defines before units.old made }
    ensures { (before : AnyUnits) → Defines before units.old made → IsBack before units.new }
{
    units.env.put_back(units.root, made.ident, made.before);
    units.defined.remove(&made.ident);
    if !made.keyword {
        return;
    }
    units.macros.take(units.unit, made.ident);
}
