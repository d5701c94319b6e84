//! Definitions in units and bodies (R7RS 5.3): one that changes what a keyword was taken for is refused, and so is a second one.
ghost use Rattle.std.specs.Prelude.{◌≡◌, ℕ, ◌+◌, ◌^◌, ◌≤◌, ◌<◌, List, length, Option, None, Err, OnOk, false, ◌&&◌, ◌||◌};
ghost use Rattle.std.specs.BTreeMap.{get};
ghost use Rattle.std.specs.Ordering.{nat_cmp};
ghost use Rattle.scheme_model.specs.CountedExpansion.{means_here, refused_here};
ghost use Rattle.scheme_model.specs.ExpansionFaults.{Named};
ghost use Rattle.scheme_model.specs.Ident.{Ident as Identifier};
ghost use Rattle.scheme_model.specs.Meaning.{Meaning as ModelMeaning};
ghost use Rattle.scheme_model.specs.Requirements.{Known};
ghost use Rattle.scheme_model.specs.RulesShape.{Rules};
ghost use Rattle.scheme_model.specs.Order.{Note as ModelNote, Pending, Renamed, binder_at, told, is_some};
ghost use Rattle.scheme_model.specs.ScopedExpansion.{Frames, FramedIdent, ScopedState, body_around, definition_added, meaning_next, is_defined, assigned};
ghost use Rattle.scheme_model.specs.Substitution.{any, differ, unchanged};
ghost use Rattle.syntax_tree.specs.Macros.{IsIdent};
ghost use Rattle.syntax_tree.specs.Meant.{IsMeaning};
ghost use Rattle.syntax_tree.specs.declared.meaning.Meaning.{Meaning as AnyMeaning};
ghost use Rattle.syntax_tree.specs.declared.trees.Work.{Work as AnyWork};
ghost use Rattle.core_forms.specs.Parts.{IsName};
ghost use Rattle.core_tree.specs.Names.{IsBinder};
ghost use Rattle.core_tree.specs.declared.traces.FormFault.{FormFault as AnyFault};
ghost use Rattle.feature_requirements.specs.declared.fault.ExpandFault.TheVariants.{At};
ghost use Rattle.unit_scopes.specs.Macros.{macro_in, same_key, IsBound};
ghost use Rattle.unit_scopes.specs.Searched.{speaks_of, searched};
ghost use Rattle.unit_scopes.specs.State.{Stands, most_locals};
ghost use Rattle.unit_scopes.specs.Kept.{NoteFor, NotesFor, PlaceFor, SpotFor};
ghost use Rattle.form_notes.specs.Standing.{outcome_as};
ghost use Rattle.unit_scopes.specs.Defining.{CanGo, CanMake, HasNumber, ComesTo, CanRefuse, next_here, Places, IsKept, KeepsAny, IsPlaced, Takes, GoesTo, EndsIn, outcome_here};
ghost use Rattle.unit_scopes.specs.Stepped.{with_macros};

use crate::asked::{Asked, Asking, Note};
use crate::counting::fails_at;
use crate::macros::Macro;
use crate::scope::UnitScope;
use crate::uses::same_meaning;
use core_forms::NamePart;
use core_tree::cores::Binder;
use feature_requirements::fault::{ExpandFault, code};
use form_notes::Outcome;
use form_parts::items::Spot;
use ls_base::Mem;
use scheme_model::Occ;
use scope_env::env::Bound;
use syntax_tree::meaning::Meaning;
use syntax_tree::symbols::IdNo;
use syntax_tree::trees::Work;

/// A definition that is about to be made: of an identifier in a scope, by what it will mean, and whether of a macro.
#[derive(Clone, Copy)]
struct Coming {
    bound: Bound,
    is_macro: bool,
}

impl UnitScope {
    /// The binder of the next definition.
    pub fn next_binder(&self, spot: Spot, name: NamePart) -> Binder
        ensures { (known : Known) (work : AnyWork) (ls : List Frames) (s : ScopedState) (fs : Frames) (n : Named Identifier) → Stands work self.now ls s →
            SpotFor work self.now ls s spot fs → IsName work name n → IsBinder work.symbols s.unit s.form result (binder_at (searched known) fs s n) }
    {
        let number = if spot.in_body {
            self.form.budget.locals
        } else {
            self.defined.len() as u64
        };
        Binder {
            number,
            ident: name.ident,
            occ: name.occ,
        }
    }

    /// What the next definition makes its identifier mean.
    pub fn next_meaning(&self, spot: Spot, ident: IdNo) -> Meaning
        ensures value { result ≡ next_here self.now spot.in_body ident }
        ensures meaning { (work : AnyWork) (ls : List Frames) (s : ScopedState) (fs : Frames) (i : Identifier) → Stands work self.now ls s →
            SpotFor work self.now ls s spot fs → IsIdent work.symbols ident i → IsMeaning work.symbols s.unit s.form result (meaning_next s (body_around fs) i) }
    {
        if spot.in_body {
            Meaning::Local(self.form.budget.locals)
        } else {
            Meaning::Global {
                unit: self.unit,
                ident,
            }
        }
    }

    /// Defines a name, as a macro where one is handed in. A refused definition changes nothing.
    pub fn define(
        &mut self,
        work: &Work,
        spot: Spot,
        here: Option<Occ>,
        name: NamePart,
        kept: Option<Macro>,
        asked: &Asked,
    ) -> Result<(), ExpandFault>
        requires can { CanGo work.now self.old spot asked.now }
        requires name { HasNumber work.now name }
        requires room { self.old.form.budget.locals + 1 ≤ most_locals self.old.form.budget.nodes }
        ensures defined { (known : Known) (ls : List Frames) (s : ScopedState) (fs : Frames) (n : Named Identifier) (r : Option (Rules Identifier)) (p : Pending Identifier FramedIdent) →
            Stands work.now self.old ls s → SpotFor work.now self.old ls s spot fs → IsName work.now name n → IsKept work.now ls fs kept r → NotesFor work.now ls asked.now p.notes →
            EndsIn (λ (done : Unit {0}) (made : Renamed Identifier FramedIdent). made ≡ unchanged p) work.now self.old self.new ls spot fs result (told here ((searched known).define n r fs p s)) }
        ensures counts { OnOk result (Takes 1 self.old self.new) }
        ensures refused { (e : AnyFault) → result ≡ Err (At e) → self.new ≡ self.old }
        ensures notes { OnOk result (self.new.form.trace.notes ≡ self.old.form.trace.notes) }
        ensures others { (f : ℕ) (m : AnyMeaning) → same_key self.old.form.number (next_here self.old spot.in_body name.ident) f m ≡ false →
            OnOk result (macro_in self.new.macros f m ≡ macro_in self.old.macros f m) }
    {
        match self.outcome(work, spot, name, kept.is_some(), asked) {
            Outcome::Redefines => Err(fails_at(here, code::KEYWORD_REDEFINED, name)),
            Outcome::StoodBefore => Err(fails_at(here, code::DUPLICATE, name)),
            Outcome::Stands => Ok(self.make(work, spot, name, kept, false)?),
        }
    }

    /// Makes a definition that stands, as a macro's where one is handed in: `again` tells that the macro keeps its edition, in place of
    /// the next one.
    pub fn make(
        &mut self,
        work: &Work,
        spot: Spot,
        name: NamePart,
        kept: Option<Macro>,
        again: bool,
    ) -> Mem<()>
        requires can { CanMake work.now self.old spot name }
        requires room { self.old.form.budget.locals + 1 ≤ most_locals self.old.form.budget.nodes }
        ensures made { (ls : List Frames) (s : ScopedState) (fs : Frames) (n : Named Identifier) (r : Option (Rules Identifier)) → Stands work.now self.old ls s → SpotFor work.now self.old ls s spot fs →
            IsName work.now name n → IsKept work.now ls fs kept r → OnOk result (GoesTo work.now self.old self.new ls spot fs (definition_added (body_around fs) n r fs s)) }
        ensures placed { OnOk result (IsPlaced self.old self.new spot name kept again) }
    {
        work.symbols.told_apart();
        self.env.sound();
        let meaning = self.next_meaning(spot, name.ident);
        self.place(spot, name, meaning, kept.is_some())?;
        Ok(self.keep(meaning, kept, again)?)
    }

    /// Keeps a macro, where one is handed in, as what means this in the form, with the edition that it has or with the next one.
    fn keep(&mut self, meaning: Meaning, kept: Option<Macro>, again: bool) -> Mem<()>
        requires { IsBound meaning }
        ensures rest { OnOk result (self.new ≡ with_macros self.old self.new.macros) }
        ensures kept { OnOk result (KeepsAny self.old.macros self.new.macros self.old.form.number meaning kept again) }
    {
        match kept {
            None => Ok(()),
            Some(kept) => {
                if again {
                    return self.macros.keep_as(self.form.number, meaning, kept);
                }
                self.macros.keep(self.form.number, meaning, kept)
            }
        }
    }

    /// How the definition of a name ends, as a macro's or as a variable's.
    pub fn outcome(
        &self,
        work: &Work,
        spot: Spot,
        name: NamePart,
        is_macro: bool,
        asked: &Asked,
    ) -> Outcome
        requires can { CanGo work.now self.now spot asked.now }
        requires name { HasNumber work.now name }
        ensures { (ls : List Frames) (s : ScopedState) (fs : Frames) (n : Named Identifier) (r : Option (Rules Identifier)) (ns : List (ModelNote FramedIdent)) →
            Stands work.now self.now ls s → SpotFor work.now self.now ls s spot fs → IsName work.now name n → is_some r ≡ is_macro → NotesFor work.now ls asked.now ns →
            outcome_as result ≡ outcome_here (body_around fs) n r fs ns s }
    {
        work.symbols.told_apart();
        self.env.sound();
        let meaning = self.next_meaning(spot, name.ident);
        let coming = Coming {
            bound: Bound {
                scope: spot.scope,
                ident: name.ident,
                meaning,
            },
            is_macro,
        };
        if self.is_refused(work, coming, asked) {
            return Outcome::Redefines;
        }
        if self.is_defined(spot, name.ident) {
            return Outcome::StoodBefore;
        }
        Outcome::Stands
    }

    /// Binds a name that has no definition there yet: in a body to the next local, in a unit as one that it defines, which the
    /// form tells.
    fn place(&mut self, spot: Spot, name: NamePart, meaning: Meaning, is_macro: bool) -> Mem<()>
        requires scope { spot.scope < length self.old.env.scopes }
        requires room { self.old.form.budget.locals + 1 < 2 ^ 64 }
        requires undefined { spot.in_body ≡ false → get nat_cmp self.old.defined name.ident ≡ None }
        ensures { OnOk result (Places self.old self.new spot.in_body spot.scope name meaning is_macro) }
    {
        self.env.bind(spot.scope, name.ident, meaning)?;
        if spot.in_body {
            self.form.budget.locals += 1;
        } else {
            let binder = Binder {
                number: self.defined.len() as u64,
                ident: name.ident,
                occ: name.occ,
            };
            self.defined.insert(name.ident, is_macro)?;
            self.form.trace.definitions.push(binder)?;
        }
        Ok(())
    }

    /// Whether the unit, or the body, has a definition of an identifier.
    fn is_defined(&self, spot: Spot, ident: IdNo) -> bool
        requires { (work : AnyWork) × (ls : List Frames) × (s : ScopedState) × (fs : Frames) × Stands work self.now ls s × SpotFor work self.now ls s spot fs }
        ensures { (work : AnyWork) (ls : List Frames) (s : ScopedState) (fs : Frames) (i : Identifier) → Stands work self.now ls s →
            SpotFor work self.now ls s spot fs → IsIdent work.symbols ident i → result ≡ is_defined s (body_around fs) i }
    {
        if spot.in_body {
            self.env.binds(spot.scope, ident)
        } else {
            self.defined.contains_key(&ident)
        }
    }

    /// Whether a later definition of a program's variable is read as an assignment.
    pub fn is_assigned(&self, spot: Spot, ident: IdNo) -> bool
        ensures { (work : AnyWork) (ls : List Frames) (s : ScopedState) (fs : Frames) (i : Identifier) → Stands work self.now ls s →
            SpotFor work self.now ls s spot fs → IsIdent work.symbols ident i → result ≡ assigned s (body_around fs) i }
    {
        if spot.in_body || !self.is_program() {
            return false;
        }
        match self.defined.get(&ident) {
            None => false,
            Some(keyword) => !*keyword,
        }
    }

    /// Whether a definition changes what a note was told.
    fn is_refused(&self, work: &Work, coming: Coming, asked: &Asked) -> bool
        requires { CanRefuse work.now self.now coming asked.now }
        ensures { (ls : List Frames) (t : ScopedState) (m : ModelMeaning) (x : Identifier) (ns : List (ModelNote FramedIdent)) → ComesTo work.now self.now ls t coming m →
            IsIdent work.now.symbols coming.bound.ident x → NotesFor work.now ls asked.now ns → result ≡ any (λ note. speaks_of x note && refused_here t m coming.is_macro note) ns }
    {
        let numbers = asked.of(coming.bound.ident);
        for number in numbers {
            if self.is_changed(work, coming, asked.note(*number)) {
                return true;
            }
        }
        false
    }

    /// Whether a note asked what the definition defines, and would be told otherwise with it.
    fn is_changed(&self, work: &Work, coming: Coming, note: Note) -> bool
        requires { (ls : List Frames) × (t : ScopedState) × (m : ModelMeaning) × (q : ModelNote FramedIdent) × ComesTo work.now self.now ls t coming m × NoteFor work.now ls note q }
        ensures { (ls : List Frames) (t : ScopedState) (m : ModelMeaning) (q : ModelNote FramedIdent) → ComesTo work.now self.now ls t coming m → NoteFor work.now ls note q →
            result ≡ refused_here t m coming.is_macro q }
    {
        work.symbols.told_apart();
        match note {
            Note::LookedUp { at, head, keyword } => {
                let now = self.meant_with(work, coming, at);
                let asks = same_meaning(now, coming.bound.meaning);
                is_taken(asks, head, keyword, coming.is_macro)
            }
            Note::Compared { literal, at, held } => {
                let first = self.meant_with(work, coming, literal);
                let second = self.meant_with(work, coming, at);
                let of_first = same_meaning(first, coming.bound.meaning);
                let of_second = same_meaning(second, coming.bound.meaning);
                let holds = same_meaning(first, second);
                is_turned(of_first, of_second, held, holds)
            }
        }
    }

    /// What an identifier that was asked will mean with a definition.
    fn meant_with(&self, work: &Work, coming: Coming, at: Asking) -> Meaning
        requires scope { at.scope < length self.now.env.scopes }
        requires ident { at.ident < length work.now.symbols.idents }
        ensures { (ls : List Frames) (t : ScopedState) (m : ModelMeaning) (p : FramedIdent) → ComesTo work.now self.now ls t coming m → PlaceFor work.now ls at p →
            IsMeaning work.now.symbols t.unit t.form result (means_here t p.frames p.ident) }
    {
        self.env
            .resolve_with(at.scope, at.ident, &work.symbols, coming.bound)
    }
}

/// Whether a look-up was of what is defined, and took it for a keyword, or for no macro at the head of a form.
fn is_taken(asks: bool, head: bool, keyword: bool, is_macro: bool) -> bool
    ensures { result ≡ (asks && (keyword || (head && is_macro))) }
{
    asks && (keyword || (head && is_macro))
}

/// Whether a comparison was with what is defined, and would come out otherwise.
fn is_turned(of_first: bool, of_second: bool, held: bool, holds: bool) -> bool
    ensures { result ≡ ((of_first || of_second) && differ held holds) }
{
    (of_first || of_second) && held != holds
}
