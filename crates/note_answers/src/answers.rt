//! Whether notes have their answers still, asked outside of all forms of the open unit.
ghost use Rattle.std.specs.Prelude.{◌≡◌, ◌<◌, ◌↔◌, List, length, None, IsTrue};
ghost use Rattle.std.specs.BTreeMap.{get};
ghost use Rattle.std.specs.Ordering.{nat_cmp};
ghost use Rattle.scheme_model.specs.Ident.{Ident as Identifier};
ghost use Rattle.scheme_model.specs.Order.{is_some};
ghost use Rattle.scheme_model.specs.OwnAnswers.{root_means};
ghost use Rattle.scheme_model.specs.Meaning.{Meaning as ModelMeaning};
ghost use Rattle.scheme_model.specs.Questions.{Around, LooksUp, Compares, Means, Says};
ghost use Rattle.scheme_model.specs.ScopedExpansion.{assigned};
ghost use Rattle.syntax_tree.specs.Macros.{IsIdent};
ghost use Rattle.syntax_tree.specs.Meant.{IsMeaning};
ghost use Rattle.syntax_tree.specs.declared.trees.Work.{Work as AnyWork};
ghost use Rattle.unit_scopes.specs.Macros.{macro_in};
ghost use Rattle.unit_scopes.specs.Used.{meanings_equal};
ghost use Rattle.form_notes.specs.Noted.{Noted, Since};
ghost use Rattle.form_notes.specs.Standing.{IsNote, HaveNotes};
ghost use Rattle.note_answers.specs.Answered.{answer_now, CanAsk, CanAskAll, AreAskedOutside, HaveAnswers, IsAskedOutside, IsDefinition, KeepsEdition, variable_by};

use form_notes::{Note, Question};
use syntax_tree::meaning::Meaning;
use syntax_tree::symbols::IdNo;
use syntax_tree::trees::Work;
use syntax_tree::units::UnitKind;
use unit_scopes::UnitScope;

/// Whether all that a form asked before it defined anything has its answers still, but for how definitions end.
pub fn still_good(units: &UnitScope, work: &Work, notes: &[Note]) -> bool
    requires { (v : Around) × (r : Since) × CanAsk work.now units.now v r × ((ms : List Noted) × HaveNotes work.now.symbols r notes.now ms) }
    ensures exact { (v : Around) (r : Since) (ms : List Noted) → CanAsk work.now units.now v r → HaveNotes work.now.symbols r notes.now ms → CanAskAll work.now units.now v r notes.now ms →
        IsTrue result ↔ HaveAnswers v ms }
    ensures only { (v : Around) (r : Since) (ms : List Noted) → CanAsk work.now units.now v r → HaveNotes work.now.symbols r notes.now ms → AreAskedOutside ms → IsTrue result → HaveAnswers v ms }
{
    for note in notes {
        if note.behind == 0 && !has_answer(units, work, note) {
            return false;
        }
    }
    true
}

/// Whether what a note tells has its answer still. How a definition ends isn't asked here.
pub fn has_answer(units: &UnitScope, work: &Work, note: &Note) -> bool
    requires { (v : Around) × (r : Since) × CanAsk work.now units.now v r × ((m : Noted) × IsNote work.now.symbols r note.now m) }
    ensures answer { (v : Around) (r : Since) (m : Noted) → CanAsk work.now units.now v r → IsNote work.now.symbols r note.now m → IsAskedOutside m.question → KeepsEdition work.now units.now v r note.now.question →
        IsTrue result ↔ (answer_now v m.question ≡ m.answer) }
    ensures only { (v : Around) (r : Since) (m : Noted) → CanAsk work.now units.now v r → IsNote work.now.symbols r note.now m → IsAskedOutside m.question → IsTrue result → answer_now v m.question ≡ m.answer }
    ensures ends { (r : Since) (m : Noted) → IsNote work.now.symbols r note.now m → IsDefinition m.question → IsTrue result }
{
    match &note.question {
        Question::Lookup {
            ident,
            answer,
            keyword,
        } => has_meaning(units, work, *ident, *answer, *keyword),
        Question::Literal {
            literal,
            ident,
            answer,
        } => is_literal(units, work, *literal, *ident) == *answer,
        Question::Rules { meaning, edition } => {
            units.macros.edition(units.form.number, *meaning) == *edition
        }
        Question::Assigned { ident, answer } => is_assigned(units, *ident) == *answer,
        Question::Library { name, answer } => units.libraries.contains(name.as_str()) == *answer,
        Question::Definition {
            definition: _,
            answer: _,
        } => true,
    }
}

/// Whether an identifier means this, and whether that is a macro or none.
fn has_meaning(units: &UnitScope, work: &Work, ident: IdNo, answer: Meaning, keyword: bool) -> bool
    requires can { (v : Around) × (r : Since) × CanAsk work.now units.now v r }
    requires ident { ident < length work.now.symbols.idents }
    ensures { (v : Around) (r : Since) (i : Identifier) (m : ModelMeaning) → CanAsk work.now units.now v r → IsIdent work.now.symbols ident i → IsMeaning work.now.symbols r.unit r.form answer m →
        IsTrue result ↔ (answer_now v (LooksUp i) ≡ Means m keyword) }
{
    work.symbols.told_apart();
    let now = meaning(units, work, ident);
    is_same(now, answer) && is_macro(units, now) == keyword
}

/// Whether a literal means the same as an identifier.
fn is_literal(units: &UnitScope, work: &Work, literal: IdNo, ident: IdNo) -> bool
    requires can { (v : Around) × (r : Since) × CanAsk work.now units.now v r }
    requires literal { literal < length work.now.symbols.idents }
    requires ident { ident < length work.now.symbols.idents }
    ensures { (v : Around) (r : Since) (l : Identifier) (i : Identifier) → CanAsk work.now units.now v r → IsIdent work.now.symbols literal l → IsIdent work.now.symbols ident i →
        answer_now v (Compares l i) ≡ Says result }
{
    work.symbols.told_apart();
    is_same(meaning(units, work, literal), meaning(units, work, ident))
}

/// What an identifier means outside of all forms.
fn meaning(units: &UnitScope, work: &Work, ident: IdNo) -> Meaning
    requires can { (v : Around) × (r : Since) × CanAsk work.now units.now v r }
    requires ident { ident < length work.now.symbols.idents }
    ensures { (v : Around) (r : Since) (i : Identifier) → CanAsk work.now units.now v r → IsIdent work.now.symbols ident i →
        IsMeaning work.now.symbols v.state.unit v.state.form result (root_means v.state i) }
{
    units.env.resolve(units.root, ident, &work.symbols)
}

/// Whether two meanings are one.
fn is_same(a: Meaning, b: Meaning) -> bool
    ensures { result ≡ meanings_equal a b }
{
    a == b
}

/// Whether this means a macro.
fn is_macro(units: &UnitScope, meaning: Meaning) -> bool
    ensures { result ≡ is_some (macro_in units.now.macros units.now.form.number meaning) }
{
    units.macros.meaning(units.form.number, meaning).is_some()
}

/// Whether a later definition of an identifier is read as an assignment.
fn is_assigned(units: &UnitScope, ident: IdNo) -> bool
    ensures { (work : AnyWork) (v : Around) (r : Since) (i : Identifier) → CanAsk work units.now v r → IsIdent work.symbols ident i → result ≡ assigned v.state None i }
{
    match units.kind {
        UnitKind::Program => is_variable(units, ident),
        UnitKind::Library => false,
        UnitKind::Part => false,
    }
}

/// Whether the unit defines an identifier as a variable.
fn is_variable(units: &UnitScope, ident: IdNo) -> bool
    ensures { result ≡ variable_by (get nat_cmp units.now.defined ident) }
{
    match units.defined.get(&ident) {
        None => false,
        Some(keyword) => !*keyword,
    }
}
