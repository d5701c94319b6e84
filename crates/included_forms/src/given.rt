//! What a text gives, once it is known which texts its strings mean, and how much that is.
ghost use Rattle.std.specs.Prelude.{◌≡◌, false};
ghost use Rattle.scheme_model.specs.Included.{token_count};
ghost use Rattle.datum_reader.specs.Views.{datum_of};
ghost use Rattle.included_forms.specs.Steps.{homed_of};
ghost use Rattle.included_forms.specs.Counted.{Counted, BadBehind, tally_as, tally_capped, tally_followed};

use crate::steps::{FlatForm, Source, TextString, Way};
use datum_reader::Datum;

/// A string that means no text that can be included, and the document in which it is written.
#[derive(Clone, Copy)]
pub struct LostString<'a> {
    pub document: u32,
    pub string: TextString<'a>,
}

/// A form, what a text gives by its place in a table, or a string that gives nothing.
#[derive(Clone, Copy)]
pub enum Given<'a> {
    Form(FlatForm<'a>),
    Text(usize, Way),
    Lost(LostString<'a>),
}

/// How much is given: forms with so many tokens, which may be none at all, or a bad declaration behind so many tokens, or too many
/// tokens.
#[derive(Clone, Copy)]
pub enum Count<'a> {
    Lists { tokens: u32, is_empty: bool },
    BadAfter { tokens: u32, source: Source<'a> },
    TooLong,
}

/// What a text gives, with the first bad declaration behind it, and how much that is; and those of its steps that give forms.
#[derive(Drop)]
pub struct Written<'a> {
    pub steps: Vec<Given<'a>>,
    pub giving: Vec<Given<'a>>,
    pub bad: Option<Source<'a>>,
    pub count: Count<'a>,
}

/// What a text gives in both ways.
#[derive(Drop)]
pub struct Part<'a> {
    pub forms: Written<'a>,
    pub declarations: Written<'a>,
}

/// How many tokens a datum has.
fn token_count(datum: &Datum) -> u64
    ensures { result ≡ token_count (datum_of datum.now) }
{
    (u64::from(datum.last) + 1).saturating_sub(u64::from(datum.first))
}

/// So many tokens, unless they are too many.
fn within<'a>(limit: u32, tokens: u64, is_empty: bool) -> Count<'a>
    ensures { tally_as result ≡ tally_capped limit (Counted tokens is_empty) }
{
    if tokens > u64::from(limit) {
        return Count::TooLong;
    }
    match u32::try_from(tokens) {
        Ok(tokens) => Count::Lists { tokens, is_empty },
        Err(_) => Count::TooLong,
    }
}

/// A bad declaration behind so many tokens, unless they are too many.
fn bad_after<'a>(limit: u32, tokens: u64, source: Source<'a>) -> Count<'a>
    ensures { tally_as result ≡ tally_capped limit (BadBehind tokens (homed_of source.entry)) }
{
    if tokens > u64::from(limit) {
        return Count::TooLong;
    }
    match u32::try_from(tokens) {
        Ok(tokens) => Count::BadAfter { tokens, source },
        Err(_) => Count::TooLong,
    }
}

/// How much a form is.
pub fn form_count<'a>(limit: u32, datum: &Datum) -> Count<'a>
    ensures { tally_as result ≡ tally_capped limit (Counted (token_count (datum_of datum.now)) false) }
{
    within(limit, token_count(datum), false)
}

/// How much one count and another behind it are.
pub fn followed<'a>(limit: u32, first: Count<'a>, behind: Count<'a>) -> Count<'a>
    ensures { tally_as result ≡ tally_followed limit (tally_as first.entry) (tally_as behind.entry) }
{
    match first {
        Count::TooLong => Count::TooLong,
        Count::BadAfter { tokens, source } => bad_after(limit, u64::from(tokens), source),
        Count::Lists { tokens, is_empty } => behind_lists(limit, tokens, is_empty, behind),
    }
}

/// How much so many tokens are, and a count behind them.
fn behind_lists<'a>(limit: u32, tokens: u32, is_empty: bool, behind: Count<'a>) -> Count<'a>
    ensures { tally_as result ≡ tally_followed limit (Counted tokens is_empty) (tally_as behind.entry) }
{
    match behind {
        Count::TooLong => Count::TooLong,
        Count::BadAfter {
            tokens: others,
            source,
        } => bad_after(limit, u64::from(tokens) + u64::from(others), source),
        Count::Lists {
            tokens: others,
            is_empty: no_others,
        } => within(
            limit,
            u64::from(tokens) + u64::from(others),
            is_empty && no_others,
        ),
    }
}
