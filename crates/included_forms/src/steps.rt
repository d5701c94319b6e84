//! What a text gives, before the texts are looked at that it includes: forms, and strings that mean such texts.
ghost use Rattle.std.specs.Prelude.{ℕ, [], ◌∷◌};
ghost use Rattle.scheme_model.specs.Included.{Texts};
ghost use Rattle.included_forms.specs.Steps.{Plans, given_by};

use datum_reader::Datum;
use scheme_model::Home;

/// Where a datum is written: the document by its place, and the home of the text, where that is included.
#[derive(Clone, Copy)]
pub struct Origin {
    pub document: u32,
    pub home: Option<Home>,
}

/// A datum and where it is written.
#[derive(Clone, Copy)]
pub struct Source<'a> {
    pub origin: Origin,
    pub datum: &'a Datum,
}

/// A form, and whether it is a declaration.
#[derive(Clone, Copy)]
pub struct FlatForm<'a> {
    pub source: Source<'a>,
    pub declared: bool,
}

/// A string of a list that includes, and its characters.
#[derive(Clone, Copy)]
pub struct TextString<'a> {
    pub datum: &'a Datum,
    pub characters: &'a str,
}

/// How a text is included: its data as forms, or as declarations.
#[derive(Clone, Copy)]
pub enum Way {
    Forms,
    Declarations,
}

/// A form, or the text that a string means.
#[derive(Clone, Copy)]
pub enum Step<'a> {
    Form(FlatForm<'a>),
    Text(TextString<'a>, Way),
}

/// Why steps end: a bad declaration, or memory ran out.
#[derive(Clone, Copy)]
pub enum Stop<'a> {
    Bad(Source<'a>),
    Memory,
}

/// Adds a step.
pub fn push_step<'a>(step: Step<'a>, steps: &mut Vec<Step<'a>>) -> Result<(), Stop<'a>>
    ensures { (t : Texts) (document : ℕ) → Plans t document steps.old.items steps.new.items result (given_by t document step.entry ∷ []) }
{
    match steps.push(step) {
        Ok(()) => Ok(()),
        Err(_) => Err(Stop::Memory),
    }
}
