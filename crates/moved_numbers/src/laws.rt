//! Laws of forms under other numbers. Each is the contract of a function that does nothing.
ghost use Rattle.std.specs.Prelude.{◌≡◌};
ghost use Rattle.core_tree.specs.declared.units.UnitForm.{UnitForm};
ghost use Rattle.core_tree.specs.declared.units.Program.{Program};
ghost use Rattle.renumbering_laws.specs.Renumbering.{Renumbering};
ghost use Rattle.moves.specs.Numbers.{IsBack};
ghost use Rattle.moved_numbers.specs.Values.{form_as, program_as};

/// By the way back a form comes to be what it was, and a program with all its forms.
pub fn old_forms_come_back()
    ensures form { (r s : Renumbering) → IsBack r s → (f : UnitForm) → form_as s (form_as r f) ≡ f }
    ensures program { (r s : Renumbering) → IsBack r s → (p : Program) → program_as s (program_as r p) ≡ p }
{}
