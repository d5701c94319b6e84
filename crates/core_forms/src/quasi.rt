//! Quasiquoted data (R7RS 4.2.8): what is unquoted in them at the outermost level. A list is its first datum and the rest, so
//! `(a unquote b)` is `(a . ,b)`.
ghost use Rattle.std.specs.Prelude.{◌≡◌, ℕ, ◌+◌, ◌^◌, ◌<◌, ◌≤◌, length, Option, IfOk, OnOk};
ghost use Rattle.std.specs.BTreeMap.{get};
ghost use Rattle.std.specs.Ordering.{nat_cmp};
ghost use Rattle.scheme_model.specs.declared.Occ.{Occ};
ghost use Rattle.scheme_model.specs.Trees.{Tree as ModelTree, name, Trees, Tail};
ghost use Rattle.scheme_model.specs.Measures.{tree_size, trees_size, tail_size};
ghost use Rattle.scheme_model.specs.Shapes.{one_of};
ghost use Rattle.scheme_model.specs.Matching.{behind};
ghost use Rattle.scheme_model.specs.Quasiquote.{Mark, mark_in, hole_behind, elements_at, quasi_of};
ghost use Rattle.scheme_model.specs.Ident.{Ident as Identifier};
ghost use Rattle.syntax_tree.specs.Looks.{PartsStand, EndStands, AllNamed, EndNamed};
ghost use Rattle.syntax_tree.specs.Works.{StandsFor, IsStanding, CanName};
ghost use Rattle.core_forms.specs.Marks.{kind_of, kind_if_any, mark_as, datum_as, row_as, step_by, IsNear, keyword_by_number, AreMarks, TellsMarks, CanFind, CanFindParts, CanFindRow};
ghost use Rattle.core_forms.specs.Ends.{Ends, HasHoles, AddsPieces, AddsRow};
ghost use Rattle.core_forms.specs.Named.{TreesNamed};
ghost use Rattle.syntax_tree.specs.declared.trees.table.Region.{Region};

use crate::fault::CoreFault;
use crate::shape::{CoreKeyword, QuasiMark};
use ls_base::{Mem, Memory};
use std::alloc::Global;
use std::collections::BTreeMap;
use syntax_tree::look::{Look, look_at};
use syntax_tree::symbols::IdNo;
use syntax_tree::trees::{Tree, Work};

/// What an identifier marks.
#[derive(Clone, Copy)]
pub enum MarkKind {
    Nested,
    Unquoted,
    Spliced,
}

/// What a part of a list asks for: to be gone into, another level behind it, a hole behind it, or a refusal.
#[derive(Clone, Copy)]
pub enum Step {
    Into,
    Level(u32),
    Hole,
    Misplaced,
}

/// What is found in a datum: the unquoted expressions, for each of them how many nodes stand before its hole outside of holes, and how
/// many such nodes were passed.
#[derive(Drop)]
pub struct Found {
    pub trees: Vec<Tree>,
    pub places: Vec<u32>,
    pub passed: u32,
}

/// The unquoted expressions of a datum, and the places of their holes.
pub fn holes_of(
    alloc: Global,
    work: &Work,
    marks: &[QuasiMark],
    datum: Tree,
) -> Result<Found, CoreFault>
    requires { IsStanding work.now datum }
    ensures read { (mark : Identifier → Option Mark) (t : ModelTree Identifier) → AreMarks work.now marks.now mark → StandsFor work.now datum t →
        Ends work.now (HasHoles work.now) (quasi_of mark t) result }
    ensures named { (region : Region) → CanName work.now region datum → IfOk result (λ found. TreesNamed work.now region found.trees) }
{
    let told = by_number(alloc, marks)?;
    let depth = work.depth(datum);
    let _size = work.size(datum);
    let mut found = Found {
        trees: Vec::new(alloc),
        places: Vec::new(alloc),
        passed: 0,
    };
    find(work, &told, datum, 0, false, depth, &mut found)?;
    Ok(found)
}

/// Marks by number: of a number that stands twice, the first.
fn by_number(alloc: Global, marks: &[QuasiMark]) -> Mem<BTreeMap<IdNo, CoreKeyword>>
    ensures { IfOk result (λ told. (n : ℕ) → get nat_cmp told n ≡ keyword_by_number marks.now n) }
{
    let mut told = BTreeMap::new(alloc);
    for mark in marks {
        if !told.contains_key(&mark.ident) {
            told.insert(mark.ident, mark.keyword)?;
        }
    }
    Ok(told)
}

/// Adds what is unquoted in a datum that is at most `left` nodes deep. `element` tells that a splice may stand there.
#[cycle(quasi)]
fn find(
    work: &Work,
    told: &BTreeMap<IdNo, CoreKeyword>,
    tree: Tree,
    level: u32,
    element: bool,
    left: u32,
    found: &mut Found,
) -> Result<(), CoreFault>
    requires level { CanFind work.now tree level left }
    requires passed { CanFind work.now tree found.old.passed left }
    ensures read { (mark : Identifier → Option Mark) (t : ModelTree Identifier) → TellsMarks work.now told.now mark → StandsFor work.now tree t →
        AddsPieces work.now found.old found.new (datum_as mark level element t) result }
    ensures named { (region : Region) → CanName work.now region tree → AllNamed work.now region found.old.trees.items →
        OnOk result (AllNamed work.now region found.new.trees.items) }
    ensures bounded { (t : ModelTree Identifier) → StandsFor work.now tree t →
        OnOk result (found.new.passed ≤ found.old.passed + tree_size t) }
{
    found.passed += 1;
    match look_at(work, tree) {
        Look::Name(_) => Ok(()),
        Look::Atom(_) => Ok(()),
        Look::List(items, end) => Ok(find_row(
            work,
            told,
            items,
            end,
            level,
            element,
            left - 1,
            found,
        )?),
        Look::Vector(items) => Ok(find_parts(work, told, items, level, left - 1, found)?),
    }
}

/// Adds what is unquoted in the elements of a vector.
#[cycle(quasi)]
fn find_parts(
    work: &Work,
    told: &BTreeMap<IdNo, CoreKeyword>,
    items: &[Tree],
    level: u32,
    left: u32,
    found: &mut Found,
) -> Result<(), CoreFault>
    requires level { CanFindParts work.now items.now level left }
    requires passed { CanFindParts work.now items.now found.old.passed left }
    ensures read { (mark : Identifier → Option Mark) (ts : Trees Identifier) → TellsMarks work.now told.now mark → PartsStand work.now items.now ts →
        AddsRow work.now found.old found.new (elements_at mark level ts) result }
    ensures named { (region : Region) → AllNamed work.now region items.now → AllNamed work.now region found.old.trees.items →
        OnOk result (AllNamed work.now region found.new.trees.items) }
    ensures bounded { (ts : Trees Identifier) → PartsStand work.now items.now ts →
        OnOk result (found.new.passed ≤ found.old.passed + trees_size ts) }
{
    for k in 0..items.len() {
        find(work, told, items[k], level, true, left, found)?;
    }
    Ok(())
}

/// Adds what is unquoted in the parts and the tail of a list.
#[cycle(quasi)]
fn find_row(
    work: &Work,
    told: &BTreeMap<IdNo, CoreKeyword>,
    items: &[Tree],
    end: Option<Tree>,
    level: u32,
    element: bool,
    left: u32,
    found: &mut Found,
) -> Result<(), CoreFault>
    requires level { CanFindRow work.now items.now end level left }
    requires passed { CanFindRow work.now items.now end found.old.passed left }
    ensures read { (mark : Identifier → Option Mark) (ts : Trees Identifier) (tail : Tail Identifier) → TellsMarks work.now told.now mark →
        PartsStand work.now items.now ts → EndStands work.now end tail →
        AddsRow work.now found.old found.new (row_as mark level element ts tail) result }
    ensures named { (region : Region) → AllNamed work.now region items.now → EndNamed work.now region end → AllNamed work.now region found.old.trees.items →
        OnOk result (AllNamed work.now region found.new.trees.items) }
    ensures bounded { (ts : Trees Identifier) (tail : Tail Identifier) → PartsStand work.now items.now ts → EndStands work.now end tail →
        OnOk result (found.new.passed ≤ found.old.passed + trees_size ts + tail_size tail) }
{
    let mut inner = level;
    let mut first = element;
    for k in 0..items.len() {
        match step_of(work, told, items[k], inner, first) {
            Step::Into => find(work, told, items[k], inner, true, left, found)?,
            Step::Level(next) => {
                found.passed += 1;
                inner = next;
            }
            Step::Hole => return hole_at(work, items, k + 1, end, found),
            Step::Misplaced => return Err(CoreFault::BadQuasi),
        }
        first = false;
    }
    match end {
        None => Ok(()),
        Some(last) => Ok(find(work, told, last, inner, false, left, found)?),
    }
}

/// Passes a mark, and adds the one tree that stands at the place behind it, where nothing follows.
fn hole_at(
    work: &Work,
    items: &[Tree],
    at: usize,
    end: Option<Tree>,
    found: &mut Found,
) -> Result<(), CoreFault>
    requires within { at ≤ length items.now }
    requires passed { found.old.passed + 1 < 2 ^ 32 }
    ensures read { (i : Identifier) (o : Option Occ) (ts : Trees Identifier) (tail : Tail Identifier) → PartsStand work.now items.now ts →
        EndStands work.now end tail →
        AddsRow work.now found.old found.new (hole_behind (name i o) (one_of (behind at ts) tail)) result }
    ensures named { (region : Region) → AllNamed work.now region items.now → AllNamed work.now region found.old.trees.items →
        OnOk result (AllNamed work.now region found.new.trees.items) }
    ensures bounded { OnOk result (found.new.passed ≤ found.old.passed + 1) }
{
    if items.len() != at + 1 {
        return Err(CoreFault::BadQuasi);
    }
    match end {
        None => {
            found.passed += 1;
            found.places.push(found.passed)?;
            found.trees.push(items[at])?;
            Ok(())
        }
        Some(_) => Err(CoreFault::BadQuasi),
    }
}

/// What a part of a list asks for at a level.
fn step_of(
    work: &Work,
    told: &BTreeMap<IdNo, CoreKeyword>,
    tree: Tree,
    level: u32,
    element: bool,
) -> Step
    requires standing { IsStanding work.now tree }
    requires small { level + 1 < 2 ^ 32 }
    ensures near { IsNear level result }
    ensures value { (mark : Identifier → Option Mark) (t : ModelTree Identifier) → TellsMarks work.now told.now mark → StandsFor work.now tree t →
        result ≡ step_by (mark_in mark t) level element }
{
    match mark_of(work, told, tree) {
        None => Step::Into,
        Some(MarkKind::Nested) => Step::Level(level + 1),
        Some(MarkKind::Unquoted) => {
            if level == 0 {
                Step::Hole
            } else {
                Step::Level(level - 1)
            }
        }
        Some(MarkKind::Spliced) => {
            if level > 0 {
                Step::Level(level - 1)
            } else if element {
                Step::Hole
            } else {
                Step::Misplaced
            }
        }
    }
}

/// What a tree marks, where it is an identifier.
fn mark_of(work: &Work, told: &BTreeMap<IdNo, CoreKeyword>, tree: Tree) -> Option<MarkKind>
    requires { IsStanding work.now tree }
    ensures { (mark : Identifier → Option Mark) (t : ModelTree Identifier) → TellsMarks work.now told.now mark → StandsFor work.now tree t →
        mark_as result ≡ mark_in mark t }
{
    match look_at(work, tree) {
        Look::Name(id) => kind_at(told, id),
        Look::Atom(_) => None,
        Look::List(_, _) => None,
        Look::Vector(_) => None,
    }
}

/// What the identifier of a number marks.
fn kind_at(told: &BTreeMap<IdNo, CoreKeyword>, id: IdNo) -> Option<MarkKind>
    ensures { result ≡ kind_if_any (get nat_cmp told.now id) }
{
    match told.get(&id) {
        None => None,
        Some(keyword) => kind_of(*keyword),
    }
}

/// What a keyword marks.
fn kind_of(keyword: CoreKeyword) -> Option<MarkKind>
    ensures { result ≡ kind_of keyword }
{
    match keyword {
        CoreKeyword::Quasiquote => Some(MarkKind::Nested),
        CoreKeyword::Unquote => Some(MarkKind::Unquoted),
        CoreKeyword::UnquoteSplicing => Some(MarkKind::Spliced),
        CoreKeyword::Quote => None,
        CoreKeyword::Lambda => None,
        CoreKeyword::CaseLambda => None,
        CoreKeyword::If => None,
        CoreKeyword::Set => None,
        CoreKeyword::Begin => None,
        CoreKeyword::Define => None,
        CoreKeyword::DefineValues => None,
        CoreKeyword::DefineRecordType => None,
        CoreKeyword::DefineSyntax => None,
        CoreKeyword::LetSyntax => None,
        CoreKeyword::LetrecSyntax => None,
        CoreKeyword::CondExpand => None,
        CoreKeyword::SyntaxError => None,
        CoreKeyword::Include => None,
        CoreKeyword::IncludeCi => None,
    }
}
