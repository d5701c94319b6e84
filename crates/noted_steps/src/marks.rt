//! What the heads within a quasiquotation mark, noted (R7RS 4.2.8): of exactly those that its nesting comes to.
ghost use Rattle.std.specs.Prelude.{◌≡◌, ◌+◌, ◌^◌, ◌<◌, List, [], ◌∷◌, length, Option, IfSome};
ghost use Rattle.scheme_model.specs.declared.Occ.{Occ};
ghost use Rattle.scheme_model.specs.Ident.{Ident as Identifier};
ghost use Rattle.scheme_model.specs.Quasiquote.{Mark, first_name, mark_in, marks_at, pair_marks, tail_marks, element_marks};
ghost use Rattle.scheme_model.specs.Requirements.{Known};
ghost use Rattle.scheme_model.specs.ScopedExpansion.{Frames};
ghost use Rattle.scheme_model.specs.Shapes.{one_of};
ghost use Rattle.scheme_model.specs.Trees.{Tree as ModelTree, Tail, Trees, list, tree};
ghost use Rattle.syntax_tree.specs.Looks.{EndStands, PartsStand};
ghost use Rattle.syntax_tree.specs.Macros.{IsIdent};
ghost use Rattle.syntax_tree.specs.Works.{IsStanding, StandsFor};
ghost use Rattle.core_forms.specs.Marks.{CanFind, CanFindParts, CanFindRow};
ghost use Rattle.form_parts.specs.Marked.{mark_word};
ghost use Rattle.unit_scopes.specs.Outcomes.{At, CanLook};
ghost use Rattle.noted_steps.specs.Asked.{IsNear, IsOperand, behind_by, heads_asked, mark_here, marks_asked};
ghost use Rattle.noted_steps.specs.Noting.{Noting};
ghost use Rattle.noted_steps.specs.Standing.{Stands, with_notes};

use crate::noted::{named, note};
use core_forms::CoreKeyword;
use form_parts::quasi::head_mark;
use scope_env::ScopeNo;
use syntax_tree::look::{Look, look_at};
use syntax_tree::symbols::IdNo;
use syntax_tree::trees::{Tree, Work};
use unit_scopes::scope::UnitScope;

/// What comes behind the first of a list, by what that marks: what stands at this level, or nothing that is asked.
#[derive(Clone, Copy)]
pub enum Behind {
    Level(u32),
    Nothing,
}

/// Notes what the heads within a quasiquotation mark.
pub fn note_marks(units: &mut UnitScope, work: &Work, scope: ScopeNo, form: Tree)
    requires look { CanLook work.now units.old scope }
    requires form { IsStanding work.now form }
    ensures noted { (known : Known) (ls : List Frames) (s : Noting) (fs : Frames) (head : ModelTree Identifier) (ts : Trees Identifier) (tail : Tail Identifier) (o : Option Occ) → Stands work.now units.old ls s →
        At ls scope fs → StandsFor work.now form (list (tree head ts) tail o) → Stands work.now units.new ls (marks_asked known fs ts tail s) }
    ensures rest { units.new ≡ with_notes units.old units.new.form.trace.notes }
{
    match operand(work, form) {
        None => {}
        Some(datum) => {
            let depth = work.depth(datum);
            let _size = work.size(datum);
            note_datum(units, work, scope, datum, 0, depth);
        }
    }
}

/// The one tree behind the head of a form.
fn operand(work: &Work, form: Tree) -> Option<Tree>
    requires { IsStanding work.now form }
    ensures operand { (head : ModelTree Identifier) (ts : Trees Identifier) (tail : Tail Identifier) (o : Option Occ) → StandsFor work.now form (list (tree head ts) tail o) → IsOperand work.now result (one_of ts tail) }
    ensures standing { IfSome result (IsStanding work.now) }
{
    match look_at(work, form) {
        Look::List(items, end) => {
            if items.len() != 2 {
                return None;
            }
            if end.is_some() {
                return None;
            }
            Some(items[1])
        }
        Look::Name(_) => None,
        Look::Atom(_) => None,
        Look::Vector(_) => None,
    }
}

/// Notes what the heads within a datum mark that is at most `left` nodes deep.
#[cycle(marks)]
fn note_datum(
    units: &mut UnitScope,
    work: &Work,
    scope: ScopeNo,
    datum: Tree,
    level: u32,
    left: u32,
)
    requires look { CanLook work.now units.old scope }
    requires level { CanFind work.now datum level left }
    ensures noted { (known : Known) (ls : List Frames) (s : Noting) (fs : Frames) (t : ModelTree Identifier) → Stands work.now units.old ls s → At ls scope fs → StandsFor work.now datum t →
        Stands work.now units.new ls (heads_asked known fs (marks_at (mark_here known s fs) level t) s) }
    ensures rest { units.new ≡ with_notes units.old units.new.form.trace.notes }
{
    match look_at(work, datum) {
        Look::Name(_) => {}
        Look::Atom(_) => {}
        Look::List(items, end) => note_row(units, work, scope, items, end, level, left - 1),
        Look::Vector(items) => note_parts(units, work, scope, items, level, left - 1),
    }
}

/// Notes what the heads within the parts of a vector mark.
#[cycle(marks)]
fn note_parts(
    units: &mut UnitScope,
    work: &Work,
    scope: ScopeNo,
    items: &[Tree],
    level: u32,
    left: u32,
)
    requires look { CanLook work.now units.old scope }
    requires level { CanFindParts work.now items.now level left }
    ensures noted { (known : Known) (ls : List Frames) (s : Noting) (fs : Frames) (ts : Trees Identifier) → Stands work.now units.old ls s → At ls scope fs → PartsStand work.now items.now ts →
        Stands work.now units.new ls (heads_asked known fs (element_marks (mark_here known s fs) level ts) s) }
    ensures rest { units.new ≡ with_notes units.old units.new.form.trace.notes }
{
    for k in 0..items.len() {
        note_datum(units, work, scope, items[k], level, left);
    }
}

/// Notes what the first of a list marks, and what the heads behind it do.
#[cycle(marks)]
fn note_row(
    units: &mut UnitScope,
    work: &Work,
    scope: ScopeNo,
    items: &[Tree],
    end: Option<Tree>,
    level: u32,
    left: u32,
)
    requires look { CanLook work.now units.old scope }
    requires level { CanFindRow work.now items.now end level left }
    ensures noted { (known : Known) (ls : List Frames) (s : Noting) (fs : Frames) (ts : Trees Identifier) (tail : Tail Identifier) → Stands work.now units.old ls s → At ls scope fs →
        PartsStand work.now items.now ts → EndStands work.now end tail →
        Stands work.now units.new ls (heads_asked known fs (pair_marks (mark_here known s fs) level ts (tail_marks (mark_here known s fs) tail)) s) }
    ensures rest { units.new ≡ with_notes units.old units.new.form.trace.notes }
{
    let mut inner = level;
    for k in 0..items.len() {
        match note_first(units, work, scope, items[k], inner) {
            Behind::Nothing => return,
            Behind::Level(next) => {
                note_datum(units, work, scope, items[k], inner, left);
                inner = next;
            }
        }
    }
    match end {
        None => {}
        Some(last) => note_datum(units, work, scope, last, inner, left),
    }
}

/// Notes what a part of a list marks, where it is an identifier, and tells what comes behind it.
fn note_first(units: &mut UnitScope, work: &Work, scope: ScopeNo, part: Tree, level: u32) -> Behind
    requires look { CanLook work.now units.old scope }
    requires part { IsStanding work.now part }
    requires small { level + 1 < 2 ^ 32 }
    ensures noted { (known : Known) (ls : List Frames) (s : Noting) (fs : Frames) (t : ModelTree Identifier) → Stands work.now units.old ls s → At ls scope fs → StandsFor work.now part t →
        Stands work.now units.new ls (heads_asked known fs (first_name t) s) }
    ensures behind { (known : Known) (ls : List Frames) (s : Noting) (fs : Frames) (t : ModelTree Identifier) → Stands work.now units.old ls s → At ls scope fs → StandsFor work.now part t →
        result ≡ behind_by (mark_in (mark_here known s fs) t) level }
    ensures near { IsNear level result }
    ensures rest { units.new ≡ with_notes units.old units.new.form.trace.notes }
{
    match look_at(work, part) {
        Look::Name(ident) => {
            let keyword = note_mark(units, work, scope, ident);
            level_behind(keyword, level)
        }
        Look::Atom(_) => Behind::Level(level),
        Look::List(_, _) => Behind::Level(level),
        Look::Vector(_) => Behind::Level(level),
    }
}

/// Notes what an identifier marks, and tells it.
fn note_mark(units: &mut UnitScope, work: &Work, scope: ScopeNo, ident: IdNo) -> Option<CoreKeyword>
    requires look { CanLook work.now units.old scope }
    requires ident { ident < length work.now.symbols.idents }
    ensures noted { (known : Known) (ls : List Frames) (s : Noting) (fs : Frames) (i : Identifier) → Stands work.now units.old ls s → At ls scope fs → IsIdent work.now.symbols ident i →
        Stands work.now units.new ls (heads_asked known fs (i ∷ []) s) }
    ensures mark { (known : Known) (ls : List Frames) (s : Noting) (fs : Frames) (i : Identifier) → Stands work.now units.old ls s → At ls scope fs → IsIdent work.now.symbols ident i →
        result ≡ mark_word (mark_here known s fs i) }
    ensures rest { units.new ≡ with_notes units.old units.new.form.trace.notes }
{
    let target = units.target(work, scope, named(ident));
    let keyword = head_mark(units.head_by(work, target.meaning));
    note(units, work, target);
    keyword
}

/// What comes behind what marks this.
fn level_behind(keyword: Option<CoreKeyword>, level: u32) -> Behind
    requires { level + 1 < 2 ^ 32 }
    ensures behind { (m : Option Mark) → keyword ≡ mark_word m → result ≡ behind_by m level }
    ensures near { IsNear level result }
{
    match keyword {
        None => Behind::Level(level),
        Some(CoreKeyword::Quasiquote) => Behind::Level(level + 1),
        Some(_) => {
            if level == 0 {
                return Behind::Nothing;
            }
            Behind::Level(level - 1)
        }
    }
}
