//! The forms that steps give, over a table of texts. Of each text only those steps are gone through that give forms.
ghost use Rattle.std.specs.Prelude.{◌≡◌, ◌++◌, ◌≤◌, ℕ, List, map, take, length, OnOk};
ghost use Rattle.scheme_model.specs.Included.{Given as ModelGiven, FlatForm as ModelForm, LostString as ModelLost, Lists, in_a_row, given_at};
ghost use Rattle.included_forms.specs.Steps.{form_of};
ghost use Rattle.included_forms.specs.Counted.{Stand, listing_of, in_way};

use crate::given::{Given, Part};
use crate::steps::{FlatForm, Way};
use ls_base::Mem;

/// Adds the forms that steps give, each of which the texts at the places below this one in a table give.
#[cycle(writing)]
pub fn write<'a>(
    parts: &[Part<'a>],
    below: usize,
    steps: &[Given<'a>],
    forms: &mut Vec<FlatForm<'a>>,
) -> Mem<()>
    ensures { (limit : ℕ) (gs : List ModelGiven) → Stand limit gs parts.now → (n : ℕ) (fs : List ModelForm) (ls : List ModelLost) →
        in_a_row limit (map (listing_of (take below gs)) steps.now) ≡ Lists n fs ls → OnOk result (map form_of forms.new.items ≡ map form_of forms.old.items ++ fs) }
{
    for step in steps {
        write_step(parts, below, *step, forms)?;
    }
    Ok(())
}

/// Adds the forms that a step gives.
#[cycle(writing)]
fn write_step<'a>(
    parts: &[Part<'a>],
    below: usize,
    step: Given<'a>,
    forms: &mut Vec<FlatForm<'a>>,
) -> Mem<()>
    ensures { (limit : ℕ) (gs : List ModelGiven) → Stand limit gs parts.now → (n : ℕ) (fs : List ModelForm) (ls : List ModelLost) →
        listing_of (take below gs) step.entry ≡ Lists n fs ls → OnOk result (map form_of forms.new.items ≡ map form_of forms.old.items ++ fs) }
{
    match step {
        Given::Form(form) => Ok(forms.push(form)?),
        Given::Text(place, way) => {
            if place < below {
                return write_text(parts, place, way, forms);
            }
            Ok(())
        }
        Given::Lost(_) => Ok(()),
    }
}

/// Adds the forms that the text at a place gives.
#[cycle(writing)]
fn write_text<'a>(
    parts: &[Part<'a>],
    place: usize,
    way: Way,
    forms: &mut Vec<FlatForm<'a>>,
) -> Mem<()>
    ensures { (limit : ℕ) (gs : List ModelGiven) → Stand limit gs parts.now → (n : ℕ) (fs : List ModelForm) (ls : List ModelLost) →
        in_way (given_at gs place) way ≡ Lists n fs ls → OnOk result (map form_of forms.new.items ≡ map form_of forms.old.items ++ fs) }
{
    if place >= parts.len() {
        return Ok(());
    }
    let written = parts[place].written(way);
    write(parts, place, written.giving.as_slice(), forms)
}
