//! The texts that the strings of lists mean (R7RS 4.1.7, 5.6.1).
ghost use Rattle.std.specs.Prelude.{[], ◌∷◌, map, ℕ};
ghost use Rattle.scheme_model.specs.Included.{Texts};
ghost use Rattle.datum_reader.specs.Views.{datum_of, data_of};
ghost use Rattle.included_strings.specs.Strings.{strings_among};
ghost use Rattle.included_forms.specs.Steps.{Plans, text_by};

use crate::steps::{Step, Stop, TextString, Way, push_step};
use datum_reader::Datum;
use included_strings::string_in;

/// Adds the text that a string means.
fn push_text<'a>(way: Way, datum: &'a Datum, steps: &mut Vec<Step<'a>>) -> Result<(), Stop<'a>>
    ensures { (t : Texts) (document : ℕ) → Plans t document steps.old.items steps.new.items result (map (text_by t way document) (strings_among (datum_of datum.now ∷ []))) }
{
    match string_in(datum) {
        None => Ok(()),
        Some(characters) => {
            let string = TextString { datum, characters };
            push_step(Step::Text(string, way), steps)
        }
    }
}

/// Adds the texts that strings mean.
pub fn push_texts<'a>(
    way: Way,
    strings: &'a [Datum],
    steps: &mut Vec<Step<'a>>,
) -> Result<(), Stop<'a>>
    ensures { (t : Texts) (document : ℕ) → Plans t document steps.old.items steps.new.items result (map (text_by t way document) (strings_among (data_of strings.now))) }
{
    for datum in strings {
        push_text(way, datum, steps)?;
    }
    Ok(())
}
