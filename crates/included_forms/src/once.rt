//! Strings that mean no text that can be included, each once.
ghost use Rattle.std.specs.Prelude.{◌≡◌, map, IfOk};
ghost use Rattle.included_forms.specs.Counted.{lost_of};
ghost use Rattle.included_forms.specs.Losses.{lost_in, spot_of};

use crate::given::LostString;
use ls_base::Mem;
use std::alloc::Global;
use std::collections::BTreeSet;

/// Where a string stands: its document, and its first byte there.
#[derive(Clone, Copy, PartialEq, Eq, PartialOrd, Ord)]
pub struct Spot {
    pub document: u32,
    pub start: u32,
}

fn spot_of(lost: &LostString<'_>) -> Spot
    ensures { result ≡ spot_of (lost_of lost.now) }
{
    Spot {
        document: lost.document,
        start: lost.string.datum.span.start,
    }
}

/// Strings that were found from the last to the first, in their order, each once: of those at one place the last.
pub fn each_once<'a>(alloc: Global, found: &[LostString<'a>]) -> Mem<Vec<LostString<'a>>>
    ensures { IfOk result (λ lost. map lost_of lost.items ≡ lost_in found.now) }
{
    let mut spots = BTreeSet::new(alloc);
    let mut lost = Vec::new(alloc);
    for string in found {
        if spots.insert(spot_of(string))? {
            lost.push(*string)?;
        }
    }
    lost.reverse();
    Ok(lost)
}
