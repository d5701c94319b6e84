//! The points of a form of a unit.
ghost use Rattle.std.specs.Prelude.{◌≡◌, ℕ, List, map, Option, Some, IfOk, OnOk};
ghost use Rattle.std.specs.List.{flat_map};
ghost use Rattle.scheme_model.specs.declared.Occ.{Occ as AnyOcc};
ghost use Rattle.scheme_model.specs.Trees.{Atom, atom, Tree as ModelTree};
ghost use Rattle.scheme_model.specs.Ident.{Ident as Identifier, symbol_of};
ghost use Rattle.scheme_model.specs.Cores.{MacroDef as ModelMacro, Parts};
ghost use Rattle.scheme_model.specs.Substitution.{Table};
ghost use Rattle.rename_model.specs.Walks.{AtShape, Point as ModelPoint, TreeNode as ModelNode, atom_points, symbol_points, list_points, vector_points, data_point, data_points, macro_points, form_points};
ghost use Rattle.syntax_tree.specs.Macros.{IsIdent};
ghost use Rattle.syntax_tree.specs.Names.{Names};
ghost use Rattle.syntax_tree.specs.Works.{StandsFor};
ghost use Rattle.core_tree.specs.Names.{AllMatch, IsMacro};
ghost use Rattle.core_tree.specs.Cores.{IsHoled, PartsStand};
ghost use Rattle.core_tree.specs.Levels.{DefineOnTop};
ghost use Rattle.program_leaves.specs.Adds.{Adds};
ghost use Rattle.alpha_equal.specs.Points.{IsPoint};
ghost use Rattle.alpha_equal.specs.Data.{IsDatumNode};
ghost use Rattle.alpha_equal.specs.Filled.{KnowsNumbers};
ghost use Rattle.alpha_equal.specs.Marks.{mark_of, IsMark, AreMarks};

use crate::rules::slots_of;
use alpha_equal::data::{DatumNode, datum_nodes};
use alpha_equal::marks::{Mark, add_form};
use alpha_equal::meanings::meaning_at;
use alpha_equal::nodes::Node;
use alpha_equal::numbers::Numbers;
use alpha_equal::points::{Point, Seen, Shown, Spot, Told};
use alpha_equal::quoted::{add_atom, add_number, add_shape, truth_number};
use alpha_equal::slots::fill;
use core_tree::cores::MacroDef;
use core_tree::units::ExpandedItem;
use ls_base::Mem;
use scheme_model::Occ;
use std::alloc::Global;
use syntax_tree::look::{Look, look_at};
use syntax_tree::symbols::IdNo;
use syntax_tree::trees::{Tree, Work};

/// Adds a constant.
fn add_constant(work: &Work, constant: Tree, points: &mut Vec<Point<'_>>) -> Mem<()>
    requires { (a : Atom) × (o : Option AnyOcc) × StandsFor work.now constant (atom a o) }
    ensures { (unit form : ℕ) (a : Atom) (o : Option AnyOcc) → StandsFor work.now constant (atom a o) →
        OnOk result (Adds (IsPoint work.now.symbols unit form) points.old.items points.new.items (atom_points AtShape None a)) }
{
    match look_at(work, constant) {
        Look::Atom(leaf) => Ok(add_atom(leaf, points)?),
        Look::Name(_) => Ok(()),
        Look::List(_, _) => Ok(()),
        Look::Vector(_) => Ok(()),
    }
}

/// Adds a quoted symbol.
fn add_symbol(work: &Work, ident: IdNo, occ: Option<Occ>, points: &mut Vec<Point<'_>>) -> Mem<()>
    requires { (i : Identifier) × IsIdent work.now.symbols ident i }
    ensures { (unit form : ℕ) (i : Identifier) → IsIdent work.now.symbols ident i →
        OnOk result (Adds (IsPoint work.now.symbols unit form) points.old.items points.new.items (symbol_points (Some (symbol_of i)) occ)) }
{
    let symbol = work.symbols.strip(ident);
    add_shape(Seen::Node(Node::Symbol), points)?;
    Ok(points.push(Point {
        told: Told {
            spot: Spot::Quoted,
            occ,
            shown: Shown::Symbol(symbol),
        },
        seen: Seen::Name(Node::Symbol, symbol),
    })?)
}

/// Adds a list by the number of its parts and whether it has a tail.
fn add_list(parts: usize, dotted: bool, points: &mut Vec<Point<'_>>) -> Mem<()>
    ensures { (names : Names) (unit form : ℕ) → OnOk result (Adds (IsPoint names unit form) points.old.items points.new.items (list_points AtShape parts dotted)) }
{
    add_shape(Seen::Node(Node::List), points)?;
    add_number(parts, points)?;
    Ok(add_number(truth_number(dotted), points)?)
}

/// Adds a vector by the number of its parts.
fn add_vector(parts: usize, points: &mut Vec<Point<'_>>) -> Mem<()>
    ensures { (names : Names) (unit form : ℕ) → OnOk result (Adds (IsPoint names unit form) points.old.items points.new.items (vector_points AtShape parts)) }
{
    add_shape(Seen::Node(Node::Vector), points)?;
    Ok(add_number(parts, points)?)
}

/// Adds a node of quoted data.
fn add_datum_node(work: &Work, node: DatumNode, points: &mut Vec<Point<'_>>) -> Mem<()>
    requires { (t : ModelNode (Option (List ℕ))) × IsDatumNode work.now.symbols node t }
    ensures { (unit form : ℕ) (t : ModelNode (Option (List ℕ))) → IsDatumNode work.now.symbols node t →
        OnOk result (Adds (IsPoint work.now.symbols unit form) points.old.items points.new.items (data_point t)) }
{
    match node {
        DatumNode::Name { ident, occ } => Ok(add_symbol(work, ident, occ, points)?),
        DatumNode::Hole => Ok(add_shape(Seen::Node(Node::Hole), points)?),
        DatumNode::Atom { leaf, occ: _ } => Ok(add_atom(leaf, points)?),
        DatumNode::List { parts, dotted } => Ok(add_list(parts, dotted, points)?),
        DatumNode::Vector { parts } => Ok(add_vector(parts, points)?),
    }
}

/// Adds the nodes of quoted data.
fn add_data(work: &Work, nodes: &[DatumNode], points: &mut Vec<Point<'_>>) -> Mem<()>
    requires { (ts : List (ModelNode (Option (List ℕ)))) × AllMatch (IsDatumNode work.now.symbols) nodes.now ts }
    ensures { (unit form : ℕ) (ts : List (ModelNode (Option (List ℕ)))) → AllMatch (IsDatumNode work.now.symbols) nodes.now ts →
        OnOk result (Adds (IsPoint work.now.symbols unit form) points.old.items points.new.items (flat_map data_point ts)) }
{
    for node in nodes {
        add_datum_node(work, *node, points)?;
    }
    Ok(())
}

/// Adds quoted data with holes at these places.
fn add_datum(
    alloc: Global,
    work: &Work,
    datum: Tree,
    places: &[u32],
    points: &mut Vec<Point<'_>>,
) -> Mem<()>
    requires { (h : ModelTree (Option (List ℕ))) × IsHoled work.now datum places.now h }
    ensures { (unit form : ℕ) (h : ModelTree (Option (List ℕ))) → IsHoled work.now datum places.now h →
        OnOk result (Adds (IsPoint work.now.symbols unit form) points.old.items points.new.items (data_points h)) }
{
    let mut nodes = Vec::new(alloc);
    datum_nodes(work, datum, places, &mut nodes)?;
    Ok(add_data(work, nodes.as_slice(), points)?)
}

/// Adds the rules of a macro.
fn add_macro(
    alloc: Global,
    work: &Work,
    numbers: &Numbers,
    definition: &MacroDef,
    points: &mut Vec<Point<'_>>,
) -> Mem<()>
    requires { (unit form : ℕ) × (m : ModelMacro) × IsMacro work.now unit form definition.now m }
    ensures { (table : Table) (unit form : ℕ) (m : ModelMacro) → KnowsNumbers work.now.symbols numbers.now table → IsMacro work.now unit form definition.now m →
        OnOk result (Adds (IsPoint work.now.symbols unit form) points.old.items points.new.items (macro_points table m)) }
{
    let slots = slots_of(alloc, work, &definition.rules)?;
    Ok(fill(
        work,
        numbers,
        slots.as_slice(),
        definition.leaves.as_slice(),
        points,
    )?)
}

/// Adds the points of a mark.
fn add_mark<'a>(
    alloc: Global,
    work: &Work,
    numbers: &Numbers,
    mark: Mark<'a>,
    points: &mut Vec<Point<'a>>,
) -> Mem<()>
    requires { (table : Table) × (unit form : ℕ) × (ps : List ModelPoint) × IsMark work.now table unit form (mark_of mark) ps }
    ensures { (table : Table) (unit form : ℕ) (ps : List ModelPoint) → KnowsNumbers work.now.symbols numbers.now table → IsMark work.now table unit form (mark_of mark.entry) ps →
        OnOk result (Adds (IsPoint work.now.symbols unit form) points.old.items points.new.items ps) }
{
    match mark {
        Mark::Node(kind) => Ok(add_shape(Seen::Node(kind), points)?),
        Mark::Number(number) => Ok(add_shape(Seen::Number(number), points)?),
        Mark::Use(target) => {
            let point = meaning_at(work, numbers, Spot::Use, target.meaning, target.occ);
            Ok(points.push(point)?)
        }
        Mark::Atom(constant) => Ok(add_constant(work, constant, points)?),
        Mark::Datum { datum, places } => Ok(add_datum(alloc, work, datum, places, points)?),
        Mark::Binders(kind, binders) => Ok(add_shape(Seen::Binders(kind, binders), points)?),
        Mark::Rules(definition) => Ok(add_macro(alloc, work, numbers, definition, points)?),
    }
}

/// Adds the points of marks.
fn add_marks<'a>(
    alloc: Global,
    work: &Work,
    numbers: &Numbers,
    marks: &[Mark<'a>],
    points: &mut Vec<Point<'a>>,
) -> Mem<()>
    requires { (table : Table) × (unit form : ℕ) × (ps : List ModelPoint) × AreMarks work.now table unit form (map mark_of marks.now) ps }
    ensures { (table : Table) (unit form : ℕ) (ps : List ModelPoint) → KnowsNumbers work.now.symbols numbers.now table → AreMarks work.now table unit form (map mark_of marks.now) ps →
        OnOk result (Adds (IsPoint work.now.symbols unit form) points.old.items points.new.items ps) }
{
    for k in 0..marks.len() {
        add_mark(alloc, work, numbers, marks[k], points)?;
    }
    Ok(())
}

/// The points of a form of a unit with these items.
pub fn points_of<'a>(
    alloc: Global,
    work: &Work,
    numbers: &Numbers,
    items: &'a [ExpandedItem],
) -> Mem<Vec<Point<'a>>>
    requires { (unit form : ℕ) × (ps : Parts) × PartsStand work.now unit form (map (λ i. i.part) items.now) ps × DefineOnTop ps }
    ensures { (table : Table) (unit form : ℕ) (ps : Parts) → KnowsNumbers work.now.symbols numbers.now table →
        PartsStand work.now unit form (map (λ i. i.part) items.now) ps → DefineOnTop ps → IfOk result (λ points. AllMatch (IsPoint work.now.symbols unit form) points.items (form_points table ps)) }
{
    let mut marks = Vec::new(alloc);
    add_form(items, &mut marks)?;
    let mut points = Vec::new(alloc);
    add_marks(alloc, work, numbers, marks.as_slice(), &mut points)?;
    Ok(points)
}
