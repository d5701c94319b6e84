//! What the part of a form that is at work notes (R7RS 4.3, 5.3): what the form itself answers is noted as nothing; what its own
//! definitions have a part in, as it is asked; all else, as it was before the form's macro uses and its definitions.
ghost use Rattle.std.specs.Prelude.{◌≡◌, ℕ, ◌+◌, ◌<◌, ◌++◌, nat_eq, List, [], length, Bool, false, ◌||◌, Option, OnOk, if◌then◌else◌};
ghost use Rattle.std.specs.BTreeSet.{btree_set_len, contains};
ghost use Rattle.std.specs.Ordering.{nat_cmp};
ghost use Rattle.scheme_model.specs.ExpansionFaults.{Named};
ghost use Rattle.scheme_model.specs.Ident.{Ident as Identifier};
ghost use Rattle.scheme_model.specs.Meaning.{Meaning as ModelMeaning, same_meaning};
ghost use Rattle.scheme_model.specs.Order.{Note as Asked, Transformer};
ghost use Rattle.scheme_model.specs.Requirements.{LibraryName};
ghost use Rattle.scheme_model.specs.RulesShape.{Rules};
ghost use Rattle.scheme_model.specs.Questions.{Stands};
ghost use Rattle.scheme_model.specs.ScopedExpansion.{FramedIdent, Frames};
ghost use Rattle.scheme_tokens.specs.LibraryNames.{library_text};
ghost use Rattle.syntax_tree.specs.Names.{Names};
ghost use Rattle.syntax_tree.specs.Macros.{IsIdent};
ghost use Rattle.syntax_tree.specs.Meant.{IsMeaning};
ghost use Rattle.syntax_tree.specs.Numbered.{number_of};
ghost use Rattle.question_laws.specs.Noted.{is_to_come, before_uses, is_defined_in, defines_within, answers_alone, compares_alone};
ghost use Rattle.form_notes.specs.Noted.{Noted, Since, beginning, began, is_local, is_own, looked_up, compared, rules_used, assigned_as, required, defined_as, defining};
ghost use Rattle.form_notes.specs.Standing.{HaveNotes, IsDefinitionOf, IsSince, OwnStands, NotingStands, SameStart, Adds, failed_as, made_by, outcome_as};
ghost use Rattle.form_notes.specs.declared.notes.Question.TheVariants as questions;

use crate::notes::{Definition, Note, Notes, Outcome, Question};
use ls_base::{Items, Mem, Memory, Text};
use std::alloc::Global;
use std::collections::BTreeSet;
use syntax_tree::meaning::Meaning;
use syntax_tree::symbols::{IdNo, Ident, Symbols, UseNo};

/// Where the part of a form at work began: its unit, its number, how many macro uses it had begun, how many notes there were, and how many
/// there were of what was looked up and compared in the unit; what it has defined in the unit since; its notes, and whether one was lost
/// for want of memory.
#[derive(Drop)]
pub struct Noting {
    pub unit: u32,
    pub form: u32,
    pub begun: u32,
    pub first: usize,
    pub before: usize,
    pub own: BTreeSet<IdNo>,
    pub notes: Notes,
    pub lost: bool,
}

impl Noting {
    /// No form is at work. It takes no memory.
    pub fn new(alloc: Global) -> Noting
        ensures notes { result.notes ≡ [] }
        ensures kept { result.lost ≡ false }
    {
        Noting {
            unit: 0,
            form: 0,
            begun: 0,
            first: 0,
            before: 0,
            own: BTreeSet::new(alloc),
            notes: Items::new(alloc),
            lost: false,
        }
    }

    /// Whether the form is yet to begin a macro use when its part begins.
    fn is_to_come(&self, number: UseNo) -> bool
        ensures { (r : Since) → IsSince self.now r → result ≡ is_to_come (began r) (number_of number) }
    {
        number.unit == self.unit && number.form == self.form && number.count >= self.begun
    }

    /// Whether the form has defined an identifier of a unit since its part began.
    fn is_own(&self, unit: u32, ident: IdNo) -> bool
        ensures { (names : Names) (r : Since) (i : Identifier) → IsSince self.now r → OwnStands names self.now.own r → IsIdent names ident i → result ≡ is_defined_in r.own unit i }
    {
        unit == self.unit && self.own.contains(&ident)
    }

    /// Whether the form has defined an identifier or one inside it.
    fn defines_within(&self, symbols: &Symbols, ident: IdNo) -> bool
        requires { ident < length symbols.now.idents }
        ensures { (r : Since) (i : Identifier) → IsSince self.now r → OwnStands symbols.now self.now.own r → IsIdent symbols.now ident i → result ≡ defines_within r.own i }
    {
        let mut at = ident;
        'inside: loop {
            match symbols.ident_at(at) {
                Ident::Written { unit, symbol: _ } => return self.is_own(unit, at),
                Ident::Inserted { id, number } => {
                    if self.is_own(number.unit, at) {
                        return true;
                    }
                    at = id;
                }
            }
        }
    }

    /// Whether an identifier means a definition of the form whatever is around it.
    fn answers_alone(&self, symbols: &Symbols, ident: IdNo) -> bool
        requires { ident < length symbols.now.idents }
        ensures { (r : Since) (i : Identifier) → IsSince self.now r → OwnStands symbols.now self.now.own r → IsIdent symbols.now ident i → result ≡ answers_alone (began r) r.own i }
    {
        let mut at = ident;
        'inside: loop {
            match symbols.ident_at(at) {
                Ident::Written { unit, symbol: _ } => return self.is_own(unit, at),
                Ident::Inserted { id, number } => {
                    if self.is_own(number.unit, at) {
                        return true;
                    }
                    if !self.is_to_come(number) {
                        return false;
                    }
                    at = id;
                }
            }
        }
    }

    /// What an identifier was before macro uses of the part inserted it.
    fn before_uses(&self, symbols: &Symbols, ident: IdNo) -> IdNo
        requires { ident < length symbols.now.idents }
        ensures { (r : Since) (i : Identifier) → IsSince self.now r → IsIdent symbols.now ident i → IsIdent symbols.now result (before_uses (began r) i) }
    {
        let mut at = ident;
        'inside: loop {
            match symbols.ident_at(at) {
                Ident::Written { unit: _, symbol: _ } => return at,
                Ident::Inserted { id, number } => {
                    if !self.is_to_come(number) {
                        return at;
                    }
                    at = id;
                }
            }
        }
    }

    /// The part of a form begins, which has begun so many macro uses, where the unit had so many notes of what was looked up and compared; its
    /// notes go on behind those that there are.
    pub fn restart(&mut self, alloc: Global, unit: u32, form: u32, begun: u32, before: usize)
        ensures begins { (names : Names) (editions : ℕ → Option (Transformer Frames Identifier)) (ms : List Noted) → let r = beginning unit form begun editions in
            HaveNotes names r self.old.notes ms → NotingStands names self.new r ms }
        ensures notes { self.new.notes ≡ self.old.notes }
        ensures before { self.new.before ≡ before }
        ensures first { self.new.first ≡ length self.old.notes }
    {
        self.unit = unit;
        self.form = form;
        self.begun = begun;
        self.first = self.notes.as_slice().len();
        self.before = before;
        self.own = BTreeSet::new(alloc);
        self.lost = false;
    }

    /// Adds a note.
    fn push(&mut self, behind: usize, question: Question)
        ensures { Adds self.old self.new (record { behind = behind; question = question }) }
    {
        if self.notes.push(Note { behind, question }).is_err() {
            self.lost = true;
        }
    }

    /// Notes what an identifier means, and whether that is a macro.
    pub fn look_up(&mut self, symbols: &Symbols, ident: IdNo, meaning: Meaning, keyword: bool)
        requires { ident < length symbols.now.idents }
        ensures noted { (r : Since) (ms : List Noted) (i : Identifier) (m : ModelMeaning) → NotingStands symbols.now self.old r ms → IsIdent symbols.now ident i → IsMeaning symbols.now r.unit r.form meaning m →
            NotingStands symbols.now self.new r (looked_up r i m keyword ++ ms) }
        ensures start { SameStart self.old self.new }
    {
        if is_local(meaning) {
            return;
        }
        if self.answers_alone(symbols, ident) {
            return;
        }
        let part = self.defines_within(symbols, ident);
        let asked = self.asked_as(symbols, part, ident);
        let behind = self.behind(part);
        self.push(behind, lookup(asked, meaning, keyword));
    }

    /// What is asked of an identifier: the identifier itself, where the form's definitions have a part in the answer.
    fn asked_as(&self, symbols: &Symbols, part: bool, ident: IdNo) -> IdNo
        requires { ident < length symbols.now.idents }
        ensures { (r : Since) (i : Identifier) → IsSince self.now r → IsIdent symbols.now ident i → IsIdent symbols.now result (if part then i else before_uses (began r) i) }
    {
        if part {
            return ident;
        }
        self.before_uses(symbols, ident)
    }

    /// How many definitions the form has made when that is asked.
    fn behind(&self, part: bool) -> usize
        ensures { (names : Names) (r : Since) → OwnStands names self.now.own r → result ≡ (if part then length r.own else 0) }
    {
        if part {
            return self.own.len();
        }
        0
    }

    /// Whether the form answers a comparison of two identifiers whatever is around it.
    fn compares_alone(&self, symbols: &Symbols, literal: IdNo, ident: IdNo) -> bool
        requires literal { literal < length symbols.now.idents }
        requires ident { ident < length symbols.now.idents }
        ensures { (r : Since) (l i : Identifier) → IsSince self.now r → OwnStands symbols.now self.now.own r → IsIdent symbols.now literal l → IsIdent symbols.now ident i →
            result ≡ compares_alone (began r) r.own l i }
    {
        let first = self.answers_alone(symbols, literal);
        let second = self.answers_alone(symbols, ident);
        let in_first = self.defines_within(symbols, literal);
        let in_second = self.defines_within(symbols, ident);
        (first && (second || !in_second)) || (second && !in_first)
    }

    /// Notes whether a literal, which means one thing, means the same as an identifier, which means another.
    pub fn compare(
        &mut self,
        symbols: &Symbols,
        literal: IdNo,
        ident: IdNo,
        first: Meaning,
        second: Meaning,
        holds: bool,
    )
        requires literal { literal < length symbols.now.idents }
        requires ident { ident < length symbols.now.idents }
        ensures noted { (r : Since) (ms : List Noted) (l i : Identifier) (m n : ModelMeaning) → NotingStands symbols.now self.old r ms → IsIdent symbols.now literal l → IsIdent symbols.now ident i →
            IsMeaning symbols.now r.unit r.form first m → IsMeaning symbols.now r.unit r.form second n → holds ≡ same_meaning m n → NotingStands symbols.now self.new r (compared r l i m n ++ ms) }
        ensures start { SameStart self.old self.new }
    {
        if is_local(first) {
            return;
        }
        if is_local(second) {
            return;
        }
        if self.compares_alone(symbols, literal, ident) {
            return;
        }
        let part = self.defines_either(symbols, literal, ident);
        let left = self.asked_as(symbols, part, literal);
        let right = self.asked_as(symbols, part, ident);
        let behind = self.behind(part);
        self.push(behind, comparison(left, right, holds));
    }

    /// Whether the form has defined one of two identifiers or one inside it.
    fn defines_either(&self, symbols: &Symbols, literal: IdNo, ident: IdNo) -> bool
        requires literal { literal < length symbols.now.idents }
        requires ident { ident < length symbols.now.idents }
        ensures { (r : Since) (l i : Identifier) → IsSince self.now r → OwnStands symbols.now self.now.own r → IsIdent symbols.now literal l → IsIdent symbols.now ident i →
            result ≡ (defines_within r.own l || defines_within r.own i) }
    {
        let in_first = self.defines_within(symbols, literal);
        let in_second = self.defines_within(symbols, ident);
        in_first || in_second
    }

    /// Notes which rules what means this has, by their edition.
    pub fn use_rules(&mut self, meaning: Meaning, edition: u64)
        ensures noted { (names : Names) (r : Since) (ms : List Noted) (m : ModelMeaning) → NotingStands names self.old r ms → IsMeaning names r.unit r.form meaning m →
            NotingStands names self.new r (rules_used r m (r.editions edition) ++ ms) }
        ensures start { SameStart self.old self.new }
    {
        if !self.is_own_meaning(meaning) {
            self.push(0, Question::Rules { meaning, edition });
        }
    }

    /// Whether the form has defined what means this.
    fn is_own_meaning(&self, meaning: Meaning) -> bool
        ensures { (names : Names) (r : Since) (m : ModelMeaning) → IsSince self.now r → OwnStands names self.now.own r → IsMeaning names r.unit r.form meaning m → result ≡ is_own r m }
    {
        match meaning {
            Meaning::Local(_) => true,
            Meaning::Global { unit, ident } => self.is_own(unit, ident),
            Meaning::Standard(_) => false,
            Meaning::Free(_) => false,
        }
    }

    /// Notes whether a definition of an identifier in the unit is an assignment.
    pub fn assign(&mut self, ident: IdNo, answer: bool)
        ensures noted { (names : Names) (r : Since) (ms : List Noted) (i : Identifier) → NotingStands names self.old r ms → IsIdent names ident i → NotingStands names self.new r (assigned_as r i answer ++ ms) }
        ensures start { SameStart self.old self.new }
    {
        if !self.is_own(self.unit, ident) {
            self.push(0, Question::Assigned { ident, answer });
        }
    }

    /// Notes whether there is a library.
    pub fn require(&mut self, name: Text, answer: bool)
        ensures noted { (names : Names) (r : Since) (ms : List Noted) (l : LibraryName) → NotingStands names self.old r ms → name ≡ library_text l → NotingStands names self.new r (required l answer ++ ms) }
        ensures start { SameStart self.old self.new }
    {
        self.push(0, Question::Library { name, answer });
    }

    /// Notes how a definition in the unit fails: it changes what a keyword was taken for, or its identifier is defined already.
    pub fn fail_definition(&mut self, definition: Definition, redefines: bool)
        ensures noted { (names : Names) (r : Since) (ms : List Noted) (fs : Frames) (x : Named Identifier) (rules : Option (Rules Identifier)) (ns : List (Asked FramedIdent)) → NotingStands names self.old r ms →
            IsDefinitionOf names definition x rules ns → NotingStands names self.new r (defined_as r fs x rules ns (failed_as redefines) ++ ms) }
        ensures start { SameStart self.old self.new }
    {
        let behind = self.behind(true);
        let answer = failure(redefines);
        self.push(behind, Question::Definition { definition, answer });
    }

    /// Notes that a definition in the unit stands. From here on the form has defined the identifier there, which it hadn't.
    pub fn define(&mut self, symbols: &Symbols, definition: Definition)
        ensures defined { (r : Since) (ms : List Noted) (fs : Frames) (x : Named Identifier) (rules : Option (Rules Identifier)) (ns : List (Asked FramedIdent)) (keyword : Bool) → NotingStands symbols.now self.old r ms →
            IsDefinitionOf symbols.now definition x rules ns → is_defined_in r.own r.unit x.name ≡ false → NotingStands symbols.now self.new (defining r x keyword) (defined_as r fs x rules ns Stands ++ ms) }
        ensures start { SameStart self.old self.new }
    {
        symbols.told_apart();
        let behind = self.behind(true);
        self.push(
            behind,
            Question::Definition {
                definition,
                answer: Outcome::Stands,
            },
        );
        match add(&mut self.own, definition.ident) {
            Ok(()) => {}
            Err(Memory) => self.lost = true,
        }
    }
}

/// How a definition ends that fails.
fn failure(redefines: bool) -> Outcome
    ensures ends { outcome_as result ≡ failed_as redefines }
    ensures made { made_by result ≡ 0 }
{
    if redefines {
        Outcome::Redefines
    } else {
        Outcome::StoodBefore
    }
}

/// Adds a number to a set.
fn add(own: &mut BTreeSet<IdNo>, ident: IdNo) -> Mem<()>
    ensures has { (n : ℕ) → OnOk result (contains nat_cmp own.new n ≡ (nat_eq n ident || contains nat_cmp own.old n)) }
    ensures count { contains nat_cmp own.old ident ≡ false → OnOk result (btree_set_len own.new ≡ btree_set_len own.old + 1) }
{
    own.insert(ident)?;
    Ok(())
}

/// Whether a meaning is a local of the form.
fn is_local(meaning: Meaning) -> bool
    ensures { (names : Names) (unit form : ℕ) (m : ModelMeaning) → IsMeaning names unit form meaning m → result ≡ is_local m }
{
    match meaning {
        Meaning::Local(_) => true,
        Meaning::Global { unit: _, ident: _ } => false,
        Meaning::Standard(_) => false,
        Meaning::Free(_) => false,
    }
}

/// The question what an identifier means, with its answer.
fn lookup(ident: IdNo, answer: Meaning, keyword: bool) -> Question
    ensures { result ≡ questions.Lookup ident answer keyword }
{
    Question::Lookup {
        ident,
        answer,
        keyword,
    }
}

/// The question whether a literal and an identifier mean the same, with its answer.
fn comparison(literal: IdNo, ident: IdNo, answer: bool) -> Question
    ensures { result ≡ questions.Literal literal ident answer }
{
    Question::Literal {
        literal,
        ident,
        answer,
    }
}
