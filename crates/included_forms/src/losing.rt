//! The strings of steps that mean no text that can be included, over a table of texts, from the last to the first. Each text is gone
//! through once for each way.
ghost use Rattle.std.specs.Prelude.{◌≡◌, ◌||◌, false, ℕ, List, map, take, length, OnOk, IfOk};
ghost use Rattle.scheme_model.specs.Included.{Given as ModelGiven, FlatForm as ModelForm, LostString as ModelLost, Lists, in_a_row, given_at};
ghost use Rattle.included_forms.specs.Counted.{Stand, listing_of, in_way};
ghost use Rattle.included_forms.specs.Losses.{Loses, AreSeen, visited_in, same_way, AreFresh};
ghost use Rattle.included_forms.specs.declared.steps.Way.{Way as ModelWay};

use crate::given::{Given, LostString, Part};
use crate::steps::Way;
use ls_base::Mem;
use std::alloc::Global;

/// In which ways the text at a place was gone through.
#[derive(Clone, Copy)]
pub struct Visit {
    pub forms: bool,
    pub declarations: bool,
}

impl Visit {
    /// Whether the text was gone through in a way.
    fn has(self, way: Way) -> bool
        ensures { result ≡ visited_in self way }
    {
        match way {
            Way::Forms => self.forms,
            Way::Declarations => self.declarations,
        }
    }

    /// Gone through in this way too.
    fn with(self, way: Way) -> Visit
        ensures { (w : ModelWay) → visited_in result w ≡ (visited_in self w || same_way way w) }
    {
        match way {
            Way::Forms => Visit {
                forms: true,
                declarations: self.declarations,
            },
            Way::Declarations => Visit {
                forms: self.forms,
                declarations: true,
            },
        }
    }
}

/// A text that wasn't gone through.
fn not_visited(_text: &Part<'_>) -> Visit
    ensures { (w : ModelWay) → visited_in result w ≡ false }
{
    Visit {
        forms: false,
        declarations: false,
    }
}

/// No text was gone through yet.
pub fn no_visits(alloc: Global, parts: &[Part<'_>]) -> Mem<Vec<Visit>>
    ensures { IfOk result (λ visits. AreFresh visits.items parts.now) }
{
    let mut visits = Vec::new(alloc);
    for part in parts {
        visits.push(not_visited(part))?;
    }
    Ok(visits)
}

/// Adds the strings that steps lose, from the last to the first, over the texts at the places below this one in a table.
#[cycle(losing)]
pub fn lose<'a>(
    parts: &[Part<'a>],
    below: usize,
    steps: &[Given<'a>],
    visits: &mut Vec<Visit>,
    lost: &mut Vec<LostString<'a>>,
) -> Mem<()>
    requires { length visits.old.items ≡ length parts.now }
    ensures as_many { length visits.new.items ≡ length parts.now }
    ensures loses { (limit : ℕ) (gs : List ModelGiven) → Stand limit gs parts.now → AreSeen gs visits.old.items lost.old.items →
        (n : ℕ) (fs : List ModelForm) (ls : List ModelLost) → in_a_row limit (map (listing_of (take below gs)) steps.now) ≡ Lists n fs ls →
        OnOk result (Loses gs lost.old.items visits.new.items lost.new.items ls) }
{
    for k in (0..steps.len()).rev() {
        lose_step(parts, below, steps[k], visits, lost)?;
    }
    Ok(())
}

/// Adds the strings that a step loses, from the last to the first.
#[cycle(losing)]
fn lose_step<'a>(
    parts: &[Part<'a>],
    below: usize,
    step: Given<'a>,
    visits: &mut Vec<Visit>,
    lost: &mut Vec<LostString<'a>>,
) -> Mem<()>
    requires { length visits.old.items ≡ length parts.now }
    ensures as_many { length visits.new.items ≡ length parts.now }
    ensures loses { (limit : ℕ) (gs : List ModelGiven) → Stand limit gs parts.now → AreSeen gs visits.old.items lost.old.items →
        (n : ℕ) (fs : List ModelForm) (ls : List ModelLost) → listing_of (take below gs) step.entry ≡ Lists n fs ls →
        OnOk result (Loses gs lost.old.items visits.new.items lost.new.items ls) }
{
    match step {
        Given::Form(_) => Ok(()),
        Given::Text(place, way) => {
            if place < below {
                return lose_text(parts, place, way, visits, lost);
            }
            Ok(())
        }
        Given::Lost(string) => Ok(lost.push(string)?),
    }
}

/// Adds the strings that the text at a place loses, unless it was gone through in this way.
#[cycle(losing)]
fn lose_text<'a>(
    parts: &[Part<'a>],
    place: usize,
    way: Way,
    visits: &mut Vec<Visit>,
    lost: &mut Vec<LostString<'a>>,
) -> Mem<()>
    requires { length visits.old.items ≡ length parts.now }
    ensures as_many { length visits.new.items ≡ length parts.now }
    ensures loses { (limit : ℕ) (gs : List ModelGiven) → Stand limit gs parts.now → AreSeen gs visits.old.items lost.old.items →
        (n : ℕ) (fs : List ModelForm) (ls : List ModelLost) → in_way (given_at gs place) way ≡ Lists n fs ls →
        OnOk result (Loses gs lost.old.items visits.new.items lost.new.items ls) }
{
    if place >= parts.len() {
        return Ok(());
    }
    if visits[place].has(way) {
        return Ok(());
    }
    let written = parts[place].written(way);
    lose(parts, place, written.steps.as_slice(), visits, lost)?;
    let visit = visits[place];
    visits[place] = visit.with(way);
    Ok(())
}
