//! Declarations that include a text, which is refused.
ghost use Rattle.std.specs.Prelude.{◌≡◌, List, length, map, vec_len, IfOk, OnOk};
ghost use Rattle.scheme_model.specs.UnitExpansion.{Formed};
ghost use Rattle.scheme_model.specs.Program.{form_trees, with_refused};
ghost use Rattle.syntax_tree.specs.declared.trees.Work.{Work};
ghost use Rattle.core_tree.specs.Units.{FormsStand, definitions_from};
ghost use Rattle.unit_sources.specs.UnitsRead.{forms_of};
ghost use Rattle.form_expansion.specs.Ends.{numbers_of};
ghost use Rattle.form_expansion.specs.Forms.{AreFormed};
ghost use Rattle.form_expansion.specs.Refused.{refused_fault, refused_forms, refused_if};

use core_tree::traces::FormFault;
use core_tree::units::UnitForm;
use ls_base::{Items, Mem};
use read_documents::form_numbers::number_of;
use scheme_model::Occ;
use unit_sources::UnitForm as SourceForm;
use unit_sources::declared::is_include;

/// Breaks the forms of a unit that are declarations which include a text. The others are as they were expanded.
pub fn refuse(unit: u32, sources: &[SourceForm], forms: Items<UnitForm>) -> Mem<Items<UnitForm>>
    requires { length sources.now ≡ length forms }
    ensures count { IfOk result (λ all. length all ≡ length forms) }
    ensures definitions { IfOk result (λ all. definitions_from 0 all ≡ definitions_from 0 forms) }
    ensures formed { (work : Work) → AreFormed work unit forms → IfOk result (AreFormed work unit) }
    ensures stand { (work : Work) (fs : List Formed) → FormsStand work unit 0 forms fs →
        map (λ (f : Formed). f.form) fs ≡ numbers_of (form_trees unit 0 (forms_of sources.now)) →
        IfOk result (λ all. FormsStand work unit 0 all (with_refused unit 0 (forms_of sources.now) fs)) }
{
    let mut all = forms.into_vec();
    refuse_all(unit, sources, &mut all)?;
    Ok(Items::from_vec(all))
}

/// Breaks those of some forms that are read from such declarations.
fn refuse_all(unit: u32, sources: &[SourceForm], forms: &mut Vec<UnitForm>) -> Mem<()>
    requires { vec_len forms.old ≡ length sources.now }
    ensures { OnOk result (forms.new.items ≡ refused_forms unit 0 sources.now forms.old.items) }
{
    for (place, source) in sources.iter().enumerate() {
        let number = number_of(place)?;
        refuse_if(unit, number, source, &mut forms[place]);
    }
    Ok(())
}

/// Breaks a form, if it is read from such a declaration.
fn refuse_if(unit: u32, number: u32, source: &SourceForm, form: &mut UnitForm)
    ensures { form.new ≡ refused_if unit number source.now form.old }
{
    if is_include(source) {
        form.fault = Some(refused(unit, number));
    }
}

/// The fault of a declaration that includes a text, at its first token.
fn refused(unit: u32, form: u32) -> FormFault
    ensures { result ≡ refused_fault unit form }
{
    FormFault {
        code: 48,
        name: None,
        occ: None,
        here: Some(Occ {
            unit,
            form,
            token: 0,
        }),
        text: None,
    }
}
