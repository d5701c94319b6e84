//! What was looked up and compared before a definition (R7RS 5.3, 5.4): a definition that would change an answer is refused.
ghost use Rattle.std.specs.Prelude.{◌≡◌, ℕ, ◌≤◌, ◌<◌, List, map, slice_get, Some, max, min};
ghost use Rattle.unit_scopes.specs.declared.asked.Note.{Note as AnyNote};
ghost use Rattle.unit_scopes.specs.Within.{newest_of, note_within};

use ls_base::Mem;
use scope_env::ScopeNo;
use std::alloc::Global;
use std::collections::BTreeMap;
use syntax_tree::symbols::{IdNo, Ident, Symbols};

/// An identifier in the scope in which it was looked up.
#[derive(Clone, Copy)]
pub struct Asking {
    pub scope: ScopeNo,
    pub ident: IdNo,
}

/// A look-up of a head, or of the head of rules, and whether a keyword was the answer; or a comparison with a literal, and whether
/// both meant the same.
#[derive(Clone, Copy)]
pub enum Note {
    LookedUp {
        at: Asking,
        head: bool,
        keyword: bool,
    },
    Compared {
        literal: Asking,
        at: Asking,
        held: bool,
    },
}

impl Note {
    /// The newest of its scopes.
    fn newest(self) -> ScopeNo
        ensures { result ≡ newest_of self }
    {
        match self {
            Note::LookedUp {
                at,
                head: _,
                keyword: _,
            } => at.scope,
            Note::Compared {
                literal,
                at,
                held: _,
            } => literal.scope.max(at.scope),
        }
    }

    /// The same in scopes that are no newer than this one.
    fn within(self, last: ScopeNo) -> Note
        ensures { result ≡ note_within last self }
    {
        match self {
            Note::LookedUp { at, head, keyword } => Note::LookedUp {
                at: Asking {
                    scope: at.scope.min(last),
                    ident: at.ident,
                },
                head,
                keyword,
            },
            Note::Compared { literal, at, held } => Note::Compared {
                literal: Asking {
                    scope: literal.scope.min(last),
                    ident: literal.ident,
                },
                at: Asking {
                    scope: at.scope.min(last),
                    ident: at.ident,
                },
                held,
            },
        }
    }
}

/// All notes of a body or a unit, and for each identifier those that ask it or an identifier that uses inserted in its place. No
/// note has a scope that is newer than `newest`.
#[derive(Drop)]
pub struct Asked {
    alloc: Global,
    notes: Vec<Note>,
    asking: BTreeMap<IdNo, Vec<usize>>,
    newest: ScopeNo,
    ghost within: { (n : ℕ) (note : AnyNote) → slice_get notes.items n ≡ Some note → newest_of note ≤ newest },
}

impl Asked {
    ghost use Rattle.std.specs.Prelude.{[], ◌∷◌, ◌++◌, length, false, nat_eq, IfOk, OnOk, if◌then◌else◌};
    ghost use Rattle.scheme_model.specs.Ident.{Ident as Identifier};
    ghost use Rattle.syntax_tree.specs.Names.{Names};
    ghost use Rattle.syntax_tree.specs.Macros.{IsIdent};
    ghost use Rattle.unit_scopes.specs.Asks.{idents_of, numbers_in, is_inside_at, AreWithin, IsKnown, AskedStands};

    /// No notes, which takes no memory.
    pub fn new(alloc: Global) -> Asked
        ensures notes { result.notes.items ≡ [] }
        ensures stands { (names : Names) → AskedStands names result }
    {
        Asked {
            alloc,
            notes: Vec::new(alloc),
            asking: BTreeMap::new(alloc),
            newest: 0,
        }
    }

    /// Adds a note.
    pub fn push(&mut self, symbols: &Symbols, note: Note) -> Mem<()>
        requires { AreWithin symbols.now (idents_of note) }
        ensures notes { OnOk result (self.new.notes.items ≡ self.old.notes.items ++ note ∷ []) }
        ensures stands { AskedStands symbols.now self.old → OnOk result (AskedStands symbols.now self.new) }
    {
        let number = self.notes.len();
        self.newest = self.newest.max(note.newest());
        self.notes.push(note)?;
        match note {
            Note::LookedUp {
                at,
                head: _,
                keyword: _,
            } => Ok(self.ask(symbols, at.ident, number)?),
            Note::Compared {
                literal,
                at,
                held: _,
            } => {
                self.ask(symbols, literal.ident, number)?;
                Ok(self.ask(symbols, at.ident, number)?)
            }
        }
    }

    /// Notes of newer scopes than this one are from now on of this one.
    pub(crate) fn keep_within(&mut self, last: ScopeNo)
        ensures notes { self.new.notes.items ≡ map (note_within last) self.old.notes.items }
        ensures asking { self.new.asking ≡ self.old.asking }
    {
        if self.newest <= last {
            return;
        }
        all_within(self.notes.as_mut_slice(), last);
        self.newest = last;
    }

    /// The note with this number asks an identifier, and each inside it.
    fn ask(&mut self, symbols: &Symbols, ident: IdNo, number: usize) -> Mem<()>
        requires { ident < length symbols.now.idents }
        ensures notes { OnOk result (self.new.notes ≡ self.old.notes) }
        ensures numbers { (n : ℕ) (x : Identifier) → IsIdent symbols.now n x →
            OnOk result (numbers_in self.new n ≡ numbers_in self.old n ++ (if is_inside_at symbols.now x ident then number ∷ [] else [])) }
        ensures others { (n : ℕ) → length symbols.now.idents ≤ n → OnOk result (numbers_in self.new n ≡ numbers_in self.old n) }
        ensures known { OnOk result (IsKnown symbols.now ident) }
    {
        symbols.told_apart();
        let mut at = ident;
        'inside: loop {
            self.ask_one(at, number)?;
            match symbols.ident_at(at) {
                Ident::Written { unit: _, symbol: _ } => return Ok(()),
                Ident::Inserted { id, number: _ } => at = id,
            }
        }
    }

    /// The note with this number asks an identifier.
    fn ask_one(&mut self, ident: IdNo, number: usize) -> Mem<()>
        ensures notes { OnOk result (self.new.notes ≡ self.old.notes) }
        ensures numbers { (n : ℕ) → OnOk result (numbers_in self.new n ≡ (if nat_eq n ident then numbers_in self.old n ++ number ∷ [] else numbers_in self.old n)) }
    {
        let mut numbers = self.take(ident);
        numbers.push(number)?;
        self.asking.insert(ident, numbers)?;
        Ok(())
    }

    /// Takes out the numbers of the notes that ask an identifier so far.
    fn take(&mut self, ident: IdNo) -> Vec<usize>
        ensures taken { result.items ≡ numbers_in self.old ident }
        ensures notes { self.new.notes ≡ self.old.notes }
        ensures others { (n : ℕ) → nat_eq n ident ≡ false → numbers_in self.new n ≡ numbers_in self.old n }
    {
        match self.asking.remove(&ident) {
            Some(numbers) => numbers,
            None => Vec::new(self.alloc),
        }
    }

    /// The notes that ask an identifier, by their numbers.
    pub fn of(&self, ident: IdNo) -> &[usize]
        ensures { result.now ≡ numbers_in self.now ident }
    {
        match self.asking.get(&ident) {
            Some(numbers) => numbers.as_slice(),
            None => &[],
        }
    }

    /// How many notes there are.
    pub fn count(&self) -> usize
        ensures { result ≡ length self.now.notes.items }
    {
        self.notes.len()
    }

    /// The note with this number.
    pub fn note(&self, number: usize) -> Note
        requires { number < length self.now.notes.items }
        ensures { slice_get self.now.notes.items number ≡ Some result }
    {
        self.notes[number]
    }
}

/// Notes in scopes that are no newer than this one.
fn all_within(notes: &mut [Note], last: ScopeNo)
    ensures { notes.new ≡ map (note_within last) notes.old }
{
    for at in 0..notes.len() {
        notes[at] = notes[at].within(last);
    }
}
