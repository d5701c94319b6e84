//! Laws of the definitions. Each is the contract of a function that does nothing.
ghost use Rattle.std.specs.Prelude.{◌≡◌, ◌↔◌, ℕ, List, [], Option, None};
ghost use Rattle.scheme_model.specs.IncludedUnits.{Placed};
ghost use Rattle.scheme_model.specs.Program.{Program};
ghost use Rattle.rename_model.specs.SameProgram.{Plan, stretches, live_in, IsSame};
ghost use Rattle.rename_model.specs.Difference.{difference_in};
ghost use Rattle.rename_model.specs.Bound.{AllStretchesBound, HaveNoErrors, AllLeftOutAlike};

/// Two programs have no first difference exactly where they are the same, whatever units are in reach.
pub fn none_differs_where_same()
    ensures { (all : List Placed) (old new : Program) (plan : Plan) (reach : List ℕ) →
        difference_in all old new plan reach ≡ None ↔ IsSame all old new plan.exports reach }
{}

/// A program is the same as itself in units without Errors, where each local stands behind its binder.
pub fn same_as_itself()
    ensures { (all : List Placed) (p : Program) (reach : List ℕ) →
        HaveNoErrors p reach → AllStretchesBound (stretches p p [] reach) → IsSame all p p [] reach }
{}

/// Where no export is asked to change, the units of the old program have no Errors, and both ways round the same identifiers of
/// templates are left out, a program that is the same as another has that one as the same.
pub fn same_both_ways()
    ensures { (all back : List Placed) (old new : Program) (reach : List ℕ) → HaveNoErrors old reach →
        AllLeftOutAlike (live_in all old) (live_in back new) (stretches old new [] reach) →
        IsSame all old new [] reach → IsSame back new old [] reach }
{}
