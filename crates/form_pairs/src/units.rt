//! Units of a program as they are paired: by their documents, kinds and names.
ghost use Rattle.std.specs.Prelude.{◌≡◌, ℕ, List, Option};
ghost use Rattle.scheme_model.specs.Requirements.{LibraryName, same_library};
ghost use Rattle.scheme_model.specs.Declarations.{home_of as model_home};
ghost use Rattle.carried_forms.specs.Alike.{same_option};
ghost use Rattle.carried_forms.specs.Paired as paired;
ghost use Rattle.form_pairs.specs.Units.{first_of, IsNameOf, forms_in, IsUnitText, uri_in};
ghost use Rattle.unit_sources.specs.UnitsRead.{form_of};

use ls_base::Text;
use unit_sources::UnitForm;

/// A unit by the uri of its document, its kind and its name; whether it is broken as a whole; and its forms.
#[derive(Clone, Copy)]
pub struct UnitText<'a> {
    pub uri: &'a str,
    pub is_library: bool,
    pub name: Option<&'a Text>,
    pub broken: bool,
    pub forms: &'a [UnitForm],
}

/// A unit with a number, among units.
#[derive(Clone, Copy)]
pub struct Side<'a> {
    pub units: &'a [UnitText<'a>],
    pub unit: usize,
}

/// The forms of a unit; none where there is no such unit.
pub fn forms_at<'a>(side: &Side<'a>) -> &'a [UnitForm]
    ensures { result.now ≡ forms_in side.now.units.now side.now.unit }
{
    match side.units.get(side.unit) {
        Some(unit) => unit.forms,
        None => &[],
    }
}

/// Whether a unit goes on as another.
pub fn is_same_unit(a: &UnitText<'_>, b: &UnitText<'_>) -> bool
    ensures { (f g : ℕ → List ℕ) (n m : ℕ) (u v : paired.UnitText) → IsUnitText f n a.now u → IsUnitText g m b.now v → result ≡ paired.is_same_unit u v }
{
    !a.broken
        & (!b.broken
            & ((a.uri == b.uri) & ((a.is_library == b.is_library) & is_same_name(a.name, b.name))))
}

/// Whether two libraries have one name.
fn is_same_name(a: Option<&Text>, b: Option<&Text>) -> bool
    ensures { (m n : Option LibraryName) → IsNameOf a.entry m → IsNameOf b.entry n → result ≡ same_option same_library m n }
{
    match (a, b) {
        (None, None) => true,
        (Some(x), Some(y)) => x.as_str() == y.as_str(),
        _ => false,
    }
}

/// The first token of a form's text, at its home.
pub fn first_of(form: &UnitForm) -> u32
    ensures { result ≡ first_of form.now }
{
    match form.home {
        Some(home) => home.first,
        None => form.datum.first,
    }
}

/// The uri of the document where the form with a number of a unit is at home, and its number there.
pub fn home_of<'a>(side: &Side<'a>, number: usize, form: &UnitForm) -> (&'a str, usize)
    ensures uri { result.0.now ≡ uri_in side.now.units.now (model_home side.now.unit number (form_of form.now)).unit }
    ensures number { result.1 ≡ (model_home side.now.unit number (form_of form.now)).form }
{
    match form.home {
        Some(home) => (uri_at(side.units, home.unit as usize), home.form as usize),
        None => (uri_at(side.units, side.unit), number),
    }
}

/// The uri of the document of a unit; nothing where there is no such unit.
fn uri_at<'a>(units: &[UnitText<'a>], unit: usize) -> &'a str
    ensures { result.now ≡ uri_in units.now unit }
{
    match units.get(unit) {
        Some(unit) => unit.uri,
        None => "",
    }
}
