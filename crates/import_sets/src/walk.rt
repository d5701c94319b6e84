//! The units that a unit imports, directly or not, by going through what each of them imports once.
ghost use Rattle.std.specs.Prelude.{◌≡◌, ◌<◌, ℕ, List, IfOk, OnOk, length, true, false, replicate, vec_len};
ghost use Rattle.scheme_model.specs.Program.{Prepared, imports_at, is_in, reached};
ghost use Rattle.import_sets.specs.Graphs.{AreWithin, IsGraph, is_marked, marks, mark, mark_all};

use crate::places::row;
use ls_base::{Items, Mem};
use std::alloc::Global;

/// So many marks that aren't set.
pub fn no_marks(alloc: Global, count: usize) -> Mem<Vec<bool>>
    ensures { IfOk result (λ marked. marked.items ≡ replicate count false) }
{
    Ok(vec![in alloc; false; count]?)
}

/// Marks a unit; if it wasn't marked, what it imports is left to be gone through.
fn mark(marked: &mut Vec<bool>, left: &mut Vec<usize>, place: usize) -> Mem<()>
    requires { place < vec_len marked.old }
    ensures { OnOk result (marks marked.new.items left.new.items ≡ mark (marks marked.old.items left.old.items) place) }
{
    if marked[place] {
        return Ok(());
    }
    marked[place] = true;
    left.push(place)?;
    Ok(())
}

/// Marks units.
fn mark_all(marked: &mut Vec<bool>, left: &mut Vec<usize>, places: &[usize]) -> Mem<()>
    requires { (p : ℕ) → is_in p places.now ≡ true → p < vec_len marked.old }
    ensures { OnOk result (marks marked.new.items left.new.items ≡ mark_all (marks marked.old.items left.old.items) places.now) }
{
    for place in places {
        mark(marked, left, *place)?;
    }
    Ok(())
}

/// Whether each unit is imported by this one, directly or not.
pub fn reached(alloc: Global, graph: &[Items<usize>], start: usize) -> Mem<Vec<bool>>
    requires start { start < length graph.now }
    requires within { AreWithin graph.now }
    ensures size { IfOk result (λ marked. vec_len marked ≡ length graph.now) }
    ensures reached { (ps : List Prepared) → IsGraph graph.now ps →
        IfOk result (λ marked. (n : ℕ) → is_marked marked.items n ≡ is_in n (reached ps (length ps) (imports_at ps start))) }
{
    let mut marked = no_marks(alloc, graph.len())?;
    let mut left = Vec::new(alloc);
    mark_all(&mut marked, &mut left, row(graph, start))?;
    while let Some(place) = left.pop() {
        mark_all(&mut marked, &mut left, row(graph, place))?;
    }
    Ok(marked)
}
