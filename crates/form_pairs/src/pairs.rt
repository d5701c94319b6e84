//! Which units go on in the next program, each with its forms that do.
ghost use Rattle.std.specs.Prelude.{◌≡◌, ◌<◌, List, length, map, All, IfOk, IfSome};
ghost use Rattle.form_pairs.specs.Found.{IsCounted, pair_in, pair_made, pair_seen, pair_there};
ghost use Rattle.carried_forms.specs.Paired as paired;
ghost use Rattle.form_pairs.specs.Units.{AreUnits};

use crate::forms::{Runs, form_runs};
use crate::units::{Side, UnitText, forms_at, is_same_unit};
use ls_base::Mem;
use std::alloc::Global;

/// A unit's number before and after; how many forms it had and has; and how many of them go on at the front and at the end.
#[derive(Clone, Copy)]
pub struct UnitPair {
    pub before: usize,
    pub after: usize,
    pub forms_before: usize,
    pub forms_after: usize,
    pub front: usize,
    pub end: usize,
}

/// The pair of two units, where the first goes on as the second.
fn pair_at(alloc: Global, before: &Side<'_>, after: &Side<'_>) -> Mem<Option<UnitPair>>
    ensures pair { IfOk result (λ p. pair_there p ≡ pair_made before.now after.now) }
    ensures counted { IfOk result (λ o. IfSome o (λ p. IsCounted before.now.units.now after.now.units.now p)) }
{
    let Some(Runs { front, end }) = form_runs(alloc, before, after)? else {
        return Ok(None);
    };
    Ok(Some(UnitPair {
        before: before.unit,
        after: after.unit,
        forms_before: forms_at(before).len(),
        forms_after: forms_at(after).len(),
        front,
        end,
    }))
}

/// The pair of a unit with the first one as which it goes on. `None` where there is none.
fn pair_of<'a>(alloc: Global, before: &Side<'a>, after: &'a [UnitText<'a>]) -> Mem<Option<UnitPair>>
    requires { before.now.unit < length before.now.units.now }
    ensures pair { (us vs : List paired.UnitText) → AreUnits before.now.units.now us → AreUnits after.now vs →
        IfOk result (λ p. pair_there p ≡ pair_in us before.now.unit vs) }
    ensures counted { IfOk result (λ o. IfSome o (λ p. IsCounted before.now.units.now after.now p)) }
{
    let unit = &before.units[before.unit];
    for number in 0..after.len() {
        if is_same_unit(unit, &after[number]) {
            let other = Side {
                units: after,
                unit: number,
            };
            return pair_at(alloc, before, &other);
        }
    }
    Ok(None)
}

/// The units that go on, in the order of their numbers before, each with its forms that do.
pub fn unit_pairs<'a>(
    alloc: Global,
    before: &'a [UnitText<'a>],
    after: &'a [UnitText<'a>],
) -> Mem<Vec<UnitPair>>
    ensures pairs { (us vs : List paired.UnitText) → AreUnits before.now us → AreUnits after.now vs →
        IfOk result (λ pairs. map pair_seen pairs.items ≡ paired.unit_pairs us vs) }
    ensures counted { IfOk result (λ pairs. All (IsCounted before.now after.now) pairs.items) }
{
    let mut pairs = Vec::new(alloc);
    for unit in 0..before.len() {
        let side = Side {
            units: before,
            unit,
        };
        if let Some(pair) = pair_of(alloc, &side, after)? {
            pairs.push(pair)?;
        }
    }
    Ok(pairs)
}
