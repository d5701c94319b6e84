//! Symbols and identifiers by number. A number is a place in a table, so equal symbols have one number, and so do
//! equal identifiers (R7RS 4.3).
ghost use Rattle.std.specs.Prelude.{◌≡◌, ◌<◌, ◌≤◌, ℕ, [], length, take, slice_get, Some, IfOk, OnOk, OnErr};
ghost use Rattle.std.specs.Option.{option_map};
ghost use Rattle.scheme_model.specs.Identifiers.{Number};
ghost use Rattle.scheme_model.specs.Ident.{Ident as Identifier, Inserted, symbol_of};
ghost use Rattle.syntax_tree.specs.Names.{Names, AreToldApart, KeepsNames, StandBeside, with_symbol, with_ident};
ghost use Rattle.syntax_tree.specs.Numbered.{ident_of, IsPlaced};
ghost use Rattle.syntax_tree.specs.Hashed.{half, written_code, inserted_code};

use indexmap::{IndexMap, IndexSet};
use ls_base::{Mem, Memory};
use std::alloc::Global;
use std::hash::{Hash, Hasher};
use std::marker::Model;

/// A symbol's number: its place in the table of symbols.
pub type SymNo = usize;

/// An identifier's number: its place in the table of identifiers.
pub type IdNo = usize;

/// The number of a macro use: the unit, the form in the unit, and how many uses of the form came before.
#[derive(Clone, Copy, Debug, PartialEq, Eq, PartialOrd, Ord, Hash)]
pub struct UseNo {
    pub unit: u32,
    pub form: u32,
    pub count: u32,
}

/// An identifier: a symbol written in a unit, or an identifier that a macro use inserted.
#[derive(Clone, Copy, Debug, PartialEq, Eq, PartialOrd, Ord)]
pub enum Ident {
    Written { unit: u32, symbol: SymNo },
    Inserted { id: IdNo, number: UseNo },
}

impl Hash for Ident {
    ghost use Rattle.syntax_tree.specs.Hashed.{ident_hashed};
    ghost use Rattle.std.proofs.Common.{rules};
    ghost use Rattle.std.specs.Cmp.Rules.{comparing, hashing};

    ghost hash_input = { ident_hashed };

    ghost respects_eq = { Prim.search (hashing, rules) };

    /// All parts are hashed as one number, since an identifier is looked up for each leaf of a form.
    fn hash<H: Hasher>(&self, state: &mut H) {
        match self {
            Ident::Written { unit, symbol } => {
                written_code(*unit, *symbol).hash(state);
            }
            Ident::Inserted { id, number } => {
                inserted_code(*id, *number).hash(state);
            }
        }
    }
}

/// The lower half of a place in a table, by which it is hashed: no table comes to have more places.
fn half(place: usize) -> u64
    ensures { result ≡ half place }
{
    (place % 0x1_0000_0000) as u64
}

/// The parts of a written identifier in one number.
fn written_code(unit: u32, symbol: SymNo) -> u64
    ensures { result ≡ written_code unit symbol }
{
    unit as u64 * 0x1_0000_0000 + half(symbol)
}

/// The parts of an inserted identifier in one number.
fn inserted_code(id: IdNo, number: UseNo) -> u128
    ensures { result ≡ inserted_code id number }
{
    let outer = half(id) * 0x1_0000_0000 + number.unit as u64;
    let inner = number.form as u64 * 0x1_0000_0000 + number.count as u64;
    outer as u128 * 0x1_0000_0000_0000_0000 + inner as u128
}

/// The tables of symbols and of identifiers, which only grow. Beside each identifier stands its innermost symbol.
#[derive(Drop)]
pub struct Symbols {
    alloc: Global,
    names: IndexSet<String>,
    idents: IndexMap<Ident, SymNo>,
}

impl Model for Symbols {
    ghost use Rattle.syntax_tree.specs.Names.{Names, names_code};

    ghost Value = { Names };

    ghost coded = { names_code };

    ghost use Rattle.syntax_tree.specs.Numbered.{names_of, AreTables};

    ghost view = { λ s. names_of s.names s.idents };

    ghost invariant = { λ s. AreTables s.names s.idents };
}

impl Symbols {
    /// Empty tables, which take no memory.
    pub fn new(alloc: Global) -> Symbols
        ensures symbols { result.symbols ≡ [] }
        ensures idents { result.idents ≡ [] }
    {
        Symbols {
            alloc,
            names: IndexSet::new(alloc),
            idents: IndexMap::new(alloc),
        }
    }

    /// The number of a symbol, which is added at the end where it is new. The name is the symbol's characters in UTF-8.
    pub fn symbol(&mut self, name: &str) -> Mem<SymNo>
        ensures ok { IfOk result (λ n. slice_get self.new.symbols n ≡ Some name.now) }
        ensures symbols { OnOk result (self.new.symbols ≡ with_symbol self.old.symbols name.now) }
        ensures idents { self.new.idents ≡ self.old.idents }
        ensures keeps { KeepsNames self.old self.new }
        ensures err { OnErr result (self.new ≡ self.old) }
    {
        if let Some(number) = self.names.get_index_of(name) {
            return Ok(number);
        }
        let owned = String::from_str(self.alloc, name)?;
        let (number, _) = self.names.insert_full(owned)?;
        Ok(number)
    }

    /// How many symbols there are. It takes no memory.
    pub fn symbol_count(&self) -> usize
        ensures { result ≡ length self.now.symbols }
    {
        self.names.len()
    }

    /// How many identifiers there are. It takes no memory.
    pub fn ident_count(&self) -> usize
        ensures { result ≡ length self.now.idents }
    {
        self.idents.len()
    }

    /// The characters of a symbol. It takes no memory.
    #[inline(always)]
    pub fn name(&self, symbol: SymNo) -> &str
        requires { symbol < length self.now.symbols }
        ensures { slice_get self.now.symbols symbol ≡ Some result.now }
    {
        self.names.get_index(symbol).unwrap().as_str()
    }

    /// The number of an identifier, which is added at the end where it is new.
    pub fn ident(&mut self, ident: Ident) -> Mem<IdNo>
        requires { IsPlaced self.old ident }
        ensures ok { IfOk result (λ n. slice_get self.new.idents n ≡ ident_of self.old ident) }
        ensures idents { (i : Identifier) → ident_of self.old ident ≡ Some i →
            OnOk result (self.new.idents ≡ with_ident self.old.idents i) }
        ensures symbols { self.new.symbols ≡ self.old.symbols }
        ensures keeps { KeepsNames self.old self.new }
        ensures err { OnErr result (self.new ≡ self.old) }
    {
        let symbol = self.innermost(ident);
        let (number, _) = self.idents.insert_full(ident, symbol)?;
        Ok(number)
    }

    /// The identifier of a number. It takes no memory.
    #[inline(always)]
    pub fn ident_at(&self, id: IdNo) -> Ident
        requires { id < length self.now.idents }
        ensures ident { slice_get self.now.idents id ≡ ident_of self.now result }
        ensures placed { IsPlaced self.now result }
    {
        let (ident, _) = self.idents.get_index(id).unwrap();
        *ident
    }

    /// The symbol innermost in an identifier, in constant time. It takes no memory.
    #[inline(always)]
    pub fn strip(&self, id: IdNo) -> SymNo
        requires { id < length self.now.idents }
        ensures { slice_get self.now.symbols result ≡ option_map symbol_of (slice_get self.now.idents id) }
    {
        self.idents[id]
    }

    /// Different numbers are different symbols, and different numbers are different identifiers.
    pub fn told_apart(&self)
        ensures symbols { AreToldApart self.now.symbols }
        ensures idents { AreToldApart self.now.idents }
    {
        let _names = &self.names;
    }

    /// An identifier that a macro use inserted stands behind what it inserted.
    pub fn in_order(&self)
        ensures { (n : ℕ) (i : Identifier) (k : Number) → slice_get self.now.idents n ≡ Some (Inserted i k) →
            (m : ℕ) × (m < n) × (slice_get self.now.idents m ≡ Some i) }
    {
        let _idents = &self.idents;
    }

    /// The symbol of each identifier is in the table of symbols.
    pub fn symbols_stand(&self)
        ensures { StandBeside self.now (length self.now.symbols) (length self.now.idents) }
    {
        let _idents = &self.idents;
    }

    /// The tables go back to their first symbols and identifiers, so many, where the symbols of these are among those. It takes no
    /// memory, and time by what goes.
    pub fn back_to(&mut self, symbols: usize, idents: usize)
        requires few_symbols { symbols ≤ length self.old.symbols }
        requires few_idents { idents ≤ length self.old.idents }
        requires beside { StandBeside self.old symbols idents }
        ensures symbols { self.new.symbols ≡ take symbols self.old.symbols }
        ensures idents { self.new.idents ≡ take idents self.old.idents }
    {
        self.names.truncate(symbols);
        self.idents.truncate(idents);
    }

    /// The symbol innermost in an identifier that may be new.
    #[inline(always)]
    fn innermost(&self, ident: Ident) -> SymNo
        requires { IsPlaced self.now ident }
        ensures { slice_get self.now.symbols result ≡ option_map symbol_of (ident_of self.now ident) }
    {
        match ident {
            Ident::Written { unit: _, symbol } => symbol,
            Ident::Inserted { id, number: _ } => self.strip(id),
        }
    }
}
