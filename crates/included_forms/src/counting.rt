//! How much steps give, over a table of texts that are counted.
ghost use Rattle.std.specs.Prelude.{◌≡◌, ℕ, List, [], IfOk};
ghost use Rattle.std.specs.List.{filter};
ghost use Rattle.scheme_model.specs.Included.{Given as ModelGiven, given_at};
ghost use Rattle.included_forms.specs.Counted.{Tally, Stand, counts_none, gives, tally_as, tally_of, tally_followed, listing_of, all_given, in_way, written_in};

use crate::given::{Count, Given, Part, Written, followed, form_count};
use crate::steps::{Source, Way};
use ls_base::Mem;
use std::alloc::Global;

impl<'a> Part<'a> {
    /// What the text gives in a way.
    pub fn written(&self, way: Way) -> &Written<'a>
        ensures { result.now ≡ written_in self.now way }
    {
        match way {
            Way::Forms => &self.forms,
            Way::Declarations => &self.declarations,
        }
    }
}

/// How much the text at a place of a table gives.
fn text_count<'a>(parts: &[Part<'a>], place: usize, way: Way) -> Count<'a>
    ensures { (limit : ℕ) (gs : List ModelGiven) → Stand limit gs parts.now → tally_as result ≡ tally_of (in_way (given_at gs place) way) }
{
    match parts.get(place) {
        None => Count::Lists {
            tokens: 0,
            is_empty: true,
        },
        Some(part) => part.written(way).count,
    }
}

/// Whether nothing is given.
fn is_nothing(count: Count<'_>) -> bool
    ensures { result ≡ counts_none (tally_as count.entry) }
{
    match count {
        Count::Lists {
            tokens: _,
            is_empty,
        } => is_empty,
        Count::BadAfter {
            tokens: _,
            source: _,
        } => false,
        Count::TooLong => false,
    }
}

/// Whether a step gives forms.
fn gives(parts: &[Part<'_>], step: Given<'_>) -> bool
    ensures { (limit : ℕ) (gs : List ModelGiven) → Stand limit gs parts.now → result ≡ gives gs step.entry }
{
    match step {
        Given::Form(_) => true,
        Given::Text(place, way) => !is_nothing(text_count(parts, place, way)),
        Given::Lost(_) => false,
    }
}

/// The steps that give forms.
pub fn giving_steps<'a>(
    alloc: Global,
    parts: &[Part<'a>],
    steps: &[Given<'a>],
) -> Mem<Vec<Given<'a>>>
    ensures { (limit : ℕ) (gs : List ModelGiven) → Stand limit gs parts.now →
        IfOk result (λ giving. giving.items ≡ filter (gives gs) steps.now) }
{
    let mut giving = Vec::new(alloc);
    for step in steps {
        if gives(parts, *step) {
            giving.push(*step)?;
        }
    }
    Ok(giving)
}

/// How much a step gives.
fn step_count<'a>(limit: u32, parts: &[Part<'a>], step: Given<'a>) -> Count<'a>
    ensures { (gs : List ModelGiven) → Stand limit gs parts.now → (behind : Tally) →
        tally_followed limit (tally_as result) behind ≡ tally_followed limit (tally_of (listing_of gs step.entry)) behind }
{
    match step {
        Given::Form(form) => form_count(limit, form.source.datum),
        Given::Text(place, way) => text_count(parts, place, way),
        Given::Lost(_) => Count::Lists {
            tokens: 0,
            is_empty: true,
        },
    }
}

/// How much a bad declaration is, if there is one.
fn bad_count<'a>(bad: Option<Source<'a>>) -> Count<'a>
    ensures { (limit : ℕ) (gs : List ModelGiven) → tally_as result ≡ tally_of (all_given limit gs [] bad.entry) }
{
    match bad {
        None => Count::Lists {
            tokens: 0,
            is_empty: true,
        },
        Some(source) => Count::BadAfter { tokens: 0, source },
    }
}

/// How much steps give, and a bad declaration behind them.
pub fn count_steps<'a>(
    limit: u32,
    parts: &[Part<'a>],
    steps: &[Given<'a>],
    bad: Option<Source<'a>>,
) -> Count<'a>
    ensures { (gs : List ModelGiven) → Stand limit gs parts.now → tally_as result ≡ tally_of (all_given limit gs steps.now bad.entry) }
{
    let mut behind = bad_count(bad);
    let mut left = steps.len();
    while left > 0 {
        left -= 1;
        let first = step_count(limit, parts, steps[left]);
        behind = followed(limit, first, behind);
    }
    behind
}
