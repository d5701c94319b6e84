//! Other numbers for units and for the forms of each, and what becomes of what has such numbers in it.
ghost use Rattle.std.specs.Prelude.{◌≡◌};
ghost use Rattle.syntax_tree.specs.Numbered.{number_of};
ghost use Rattle.renumbering_laws.specs.Renumbering.{occ_at, place, number};
ghost use Rattle.moves.specs.Numbers.{moved, forms_at, numbers_of, entry_as, meaning_as};

use scheme_model::Occ;
use syntax_tree::meaning::Meaning;
use syntax_tree::symbols::{Ident, UseNo};

/// For each unit its new number, and for each of its forms the new one, both by the old ones. Behind the end numbers stay.
#[derive(Drop)]
pub struct Moves {
    pub units: Vec<u32>,
    pub forms: Vec<Vec<u32>>,
}

/// The new number of a number.
fn moved(numbers: &[u32], number: u32) -> u32
    ensures { result ≡ moved numbers.now number }
{
    match numbers.get(number as usize) {
        Some(new) => *new,
        None => number,
    }
}

impl Moves {
    /// The new numbers of a unit's forms.
    pub(crate) fn forms_at(&self, unit: u32) -> &[u32]
        ensures { result.now ≡ forms_at self.now.forms.items unit }
    {
        match self.forms.get(unit as usize) {
            Some(forms) => forms.as_slice(),
            None => &[],
        }
    }

    /// The new number of a unit.
    pub fn unit(&self, unit: u32) -> u32
        ensures { result ≡ (numbers_of self.now).unit unit }
    {
        moved(self.units.as_slice(), unit)
    }

    /// The new number of a form of a unit, told by the old number of that.
    pub fn form(&self, unit: u32, form: u32) -> u32
        ensures { result ≡ (numbers_of self.now).form unit form }
    {
        moved(self.forms_at(unit), form)
    }

    /// The place of something under the new numbers, where it has one.
    pub fn place(&self, occ: Option<Occ>) -> Option<Occ>
        ensures { result ≡ place (numbers_of self.now) occ }
    {
        match occ {
            Some(occ) => Some(self.occ(occ)),
            None => None,
        }
    }

    /// An occurrence under the new numbers.
    pub fn occ(&self, occ: Occ) -> Occ
        ensures { result ≡ occ_at (numbers_of self.now) occ }
    {
        Occ {
            unit: self.unit(occ.unit),
            form: self.form(occ.unit, occ.form),
            token: occ.token,
        }
    }

    /// The number of a macro use under the new numbers.
    pub fn use_no(&self, use_no: UseNo) -> UseNo
        ensures { number_of result ≡ number (numbers_of self.now) (number_of use_no) }
    {
        UseNo {
            unit: self.unit(use_no.unit),
            form: self.form(use_no.unit, use_no.form),
            count: use_no.count,
        }
    }

    /// An entry of the table of identifiers under the new numbers: places in the tables stay.
    pub fn entry(&self, entry: Ident) -> Ident
        ensures { result ≡ entry_as (numbers_of self.now) entry }
    {
        match entry {
            Ident::Written { unit, symbol } => Ident::Written {
                unit: self.unit(unit),
                symbol,
            },
            Ident::Inserted { id, number } => Ident::Inserted {
                id,
                number: self.use_no(number),
            },
        }
    }

    /// A meaning under the new numbers. The number of a local stays, which its form gave.
    pub fn meaning(&self, meaning: Meaning) -> Meaning
        ensures { result ≡ meaning_as (numbers_of self.now) meaning }
    {
        match meaning {
            Meaning::Local(number) => Meaning::Local(number),
            Meaning::Global { unit, ident } => Meaning::Global {
                unit: self.unit(unit),
                ident,
            },
            Meaning::Standard(symbol) => Meaning::Standard(symbol),
            Meaning::Free(symbol) => Meaning::Free(symbol),
        }
    }
}
