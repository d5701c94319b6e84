//! Units as they are read from texts (R7RS 5.1, 5.6.1), before anything is expanded.
ghost use Rattle.std.specs.Prelude.{◌≡◌};
ghost use Rattle.scheme_model.specs.Declarations.{home_of};
ghost use Rattle.unit_sources.specs.UnitsRead.{form_of};

use datum_reader::Datum;
use import_sets::{ImportSet, SetName};
use ls_base::{Items, Span, Text};
use scheme_model::Home;
use syntax_tree::units::UnitKind;

/// An import set, with a unit of the document where it stands, and the bytes of the set, of the set inside its outermost modifier,
/// and of its library's name. Without a modifier `inner` is the set itself, and for `Bad` all three are.
#[derive(Drop)]
pub struct ImportSpec {
    pub unit: u32,
    pub set: ImportSet,
    pub span: Span,
    pub inner: Span,
    pub library: Span,
}

/// An export: the form that it stands in, the identifier inside, and the one under which the library gives it. An identifier
/// that is exported as it is stands for both, so the two have one place.
#[derive(Drop)]
pub struct ExportSpec {
    pub form: u32,
    pub inner: SetName,
    pub outer: SetName,
}

/// A form of a unit, whether it is a library's declaration, and the home of its text where that is included.
#[derive(Drop)]
pub struct UnitForm {
    pub datum: Datum,
    pub declared: bool,
    pub home: Option<Home>,
}

impl UnitForm {
    /// The home of the form with this number of a unit: that unit, unless its text is included.
    pub fn home_in(&self, unit: u32, number: u32) -> Home
        ensures { result ≡ home_of unit number (form_of self.now) }
    {
        match self.home {
            Some(home) => home,
            None => Home {
                unit,
                form: number,
                first: self.datum.first,
            },
        }
    }
}

/// A string that means no text that can be included: the document in which it is written, its bytes there, and its characters.
#[derive(Drop)]
pub struct LostString {
    pub document: u32,
    pub span: Span,
    pub characters: Text,
}

/// A library or a program: its library's name as a text, its first token's bytes, what it imports, exports and holds, and the strings
/// that give it nothing.
#[derive(Drop)]
pub struct UnitSource {
    pub kind: UnitKind,
    pub name: Option<Text>,
    pub span: Span,
    pub imports: Items<ImportSpec>,
    pub exports: Items<ExportSpec>,
    pub forms: Items<UnitForm>,
    pub lost: Items<LostString>,
}
