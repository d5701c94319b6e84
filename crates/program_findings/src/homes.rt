//! Which occurrences are tokens of the forms of a unit.
ghost use Rattle.std.specs.Prelude.{◌≡◌};
ghost use Rattle.scheme_model.specs.Declarations.{forms_hold, home_of, is_token_of};
ghost use Rattle.datum_reader.specs.Views.{datum_of};
ghost use Rattle.unit_sources.specs.UnitsRead.{form_of, forms_of};

use scheme_model::Occ;
use unit_sources::UnitForm;

/// Whether an occurrence is that of a token of a form, which has this number in a unit.
fn holds(form: &UnitForm, unit: u32, number: u32, occ: Occ) -> bool
    ensures { result ≡ is_token_of (home_of unit number (form_of form.now)) (datum_of form.now.datum) occ }
{
    let home = form.home_in(unit, number);
    let token = home.first as usize + occ.token as usize;
    home.unit == occ.unit
        && (home.form == occ.form
            && (form.datum.first as usize <= token && token <= form.datum.last as usize))
}

/// Whether an occurrence is that of a token of the form with this number of a unit with these forms.
pub fn form_holds(unit: u32, forms: &[UnitForm], number: u32, occ: Occ) -> bool
    ensures { result ≡ forms_hold unit (forms_of forms.now) number occ }
{
    match forms.get(number as usize) {
        Some(form) => holds(form, unit, number, occ),
        None => false,
    }
}
