//! The units that import themselves, directly or not.
ghost use Rattle.std.specs.Prelude.{◌≡◌, ◌<◌, ℕ, List, IfOk, length, true};
ghost use Rattle.scheme_model.specs.Program.{Prepared, is_in};
ghost use Rattle.import_sets.specs.Graphs.{AreWithin, IsGraph, is_circular, passing};

use crate::places::{push_if, row};
use crate::walk::reached;
use ls_base::{Items, Mem};
use std::alloc::Global;

/// Whether a unit imports itself, directly or not. One that imports nothing takes no walk.
fn is_circular(alloc: Global, graph: &[Items<usize>], place: usize) -> Mem<bool>
    requires place { place < length graph.now }
    requires within { AreWithin graph.now }
    ensures { (ps : List Prepared) → IsGraph graph.now ps → IfOk result (λ b. b ≡ is_circular ps place) }
{
    if row(graph, place).is_empty() {
        return Ok(false);
    }
    let marked = reached(alloc, graph, place)?;
    Ok(marked[place])
}

/// The places of the units that import themselves, directly or not.
pub fn on_circles(alloc: Global, graph: &[Items<usize>]) -> Mem<Items<usize>>
    requires { AreWithin graph.now }
    ensures circular { (ps : List Prepared) → IsGraph graph.now ps → IfOk result (λ places. places ≡ passing (is_circular ps) (length graph.now)) }
    ensures below { IfOk result (λ places. (n : ℕ) → is_in n places ≡ true → n < length graph.now) }
{
    let mut places = Items::new(alloc);
    for place in 0..graph.len() {
        let circular = is_circular(alloc, graph, place)?;
        push_if(&mut places, circular, place)?;
    }
    Ok(places)
}
