//! Laws of the definitions. Each is the contract of a function that does nothing.
ghost use Rattle.std.specs.Prelude.{◌≡◌, List, Some};
ghost use Rattle.scheme_model.specs.declared.Home.{Home};
ghost use Rattle.scheme_model.specs.Declarations.{UnitForm};
ghost use Rattle.scheme_model.specs.Includes.{Document};
ghost use Rattle.scheme_model.specs.Program.{Prepared, prepare, units_of};
ghost use Rattle.form_laws.specs.Begins.{Each};
ghost use Rattle.part_homes.specs.AtHome.{IsFormOfPart};

/// Each form that a unit includes is at home in a part (R7RS 4.1.7): its home's numbers are those of a unit of the documents that is a part, among the most
/// units, and of a form of it.
pub fn included_forms_are_at_home_in_parts()
    ensures { (ds : List Document) → let all = units_of ds in let ps = prepare all 0 all in
        Each (λ (p : Prepared). Each (λ (f : UnitForm). (h : Home) → f.home ≡ Some h → IsFormOfPart ps h) p.forms) ps }
{}
