//! The order in which texts are included: each behind those that it names.
ghost use Rattle.std.specs.Prelude.{◌≡◌, ◌+◌, ◌==◌, ◌&&◌, List, length, IfOk, OnOk};
ghost use Rattle.scheme_model.specs.Includes.{Document, naming};
ghost use Rattle.text_parts.specs.Parts.{HaveCome, IsOrder, IsReach, IsTextPart};
ghost use Rattle.text_parts.specs.Places.{Each};

use crate::parts::TextPart;
use crate::reaches::Reach;
use ls_base::Mem;
use std::alloc::Global;

/// Whether a document can be included and names so many others.
fn is_due(part: TextPart, reach: Reach, count: usize) -> bool
    ensures { result ≡ (part.is_usable && (reach.count == count)) }
{
    part.is_usable && reach.count == count
}

/// Adds a document, if it can be included and names as many others.
fn add_one(
    order: &mut Vec<usize>,
    part: TextPart,
    reach: Reach,
    count: usize,
    place: usize,
) -> Mem<()>
    ensures { (ds : List Document) → IsTextPart ds place part → IsReach (naming ds) place reach → HaveCome ds order.old.items count place → OnOk result (HaveCome ds order.new.items count (place + 1)) }
{
    if !is_due(part, reach, count) {
        return Ok(());
    }
    order.push(place)?;
    Ok(())
}

/// Adds the documents that can be included and name so many others.
fn add_those(order: &mut Vec<usize>, parts: &[TextPart], reaches: &[Reach], count: usize) -> Mem<()>
    requires { length reaches.now ≡ length parts.now }
    ensures { (ds : List Document) → length parts.now ≡ length ds → Each (IsTextPart ds) parts.now → Each (IsReach (naming ds)) reaches.now → HaveCome ds order.old.items count 0 →
        OnOk result (HaveCome ds order.new.items (count + 1) 0) }
{
    for place in 0..parts.len() {
        add_one(order, parts[place], reaches[place], count, place)?;
    }
    Ok(())
}

/// The documents that can be included, those first that name fewer others.
pub fn in_order(alloc: Global, parts: &[TextPart], reaches: &[Reach]) -> Mem<Vec<usize>>
    requires { length reaches.now ≡ length parts.now }
    ensures { (ds : List Document) → length parts.now ≡ length ds → Each (IsTextPart ds) parts.now → Each (IsReach (naming ds)) reaches.now → IfOk result (λ order. IsOrder ds order.items) }
{
    let mut order = Vec::new(alloc);
    for count in 0..parts.len() {
        add_those(&mut order, parts, reaches, count)?;
    }
    Ok(order)
}
