//! Declarations by the words at their heads (R7RS 5.6.1).
ghost use Rattle.std.specs.Prelude.{◌≡◌};
ghost use Rattle.std.specs.List.{list_any};
ghost use Rattle.scheme_model.specs.Program.{is_declared, is_import, is_export, is_include};
ghost use Rattle.unit_sources.specs.UnitsRead.{form_of, forms_of};

use crate::units::UnitForm;
use datum_reader::heads::is_headed;

/// Whether a form is a declaration headed by a word.
fn is_declared(word: &str, form: &UnitForm) -> bool
    ensures { result ≡ is_declared word.now (form_of form.now) }
{
    form.declared && is_headed(word, &form.datum)
}

/// Whether a form is an import, be it of nothing.
pub fn is_import(form: &UnitForm) -> bool
    ensures { result ≡ is_import (form_of form.now) }
{
    is_declared("import", form)
}

/// Whether a form is an export declaration.
pub fn is_export(form: &UnitForm) -> bool
    ensures { result ≡ is_export (form_of form.now) }
{
    is_declared("export", form)
}

/// Whether a form is a declaration that includes a text, which is refused.
pub fn is_include(form: &UnitForm) -> bool
    ensures { result ≡ is_include (form_of form.now) }
{
    if is_declared("include", form) {
        return true;
    }
    if is_declared("include-ci", form) {
        return true;
    }
    is_declared("include-library-declarations", form)
}

/// Whether there is an import among forms.
pub fn has_import(forms: &[UnitForm]) -> bool
    ensures { result ≡ list_any is_import (forms_of forms.now) }
{
    for form in forms {
        if is_import(form) {
            return true;
        }
    }
    false
}
