//! The way back from other numbers.
ghost use Rattle.std.specs.Prelude.{◌≡◌, ℕ, IfOk, length};
ghost use Rattle.moves.specs.Numbers.{moved, numbers_of, IsPermutation, ArePermutations, IsBack};

use crate::numbers::Moves;
use ls_base::Mem;
use std::alloc::Global;

/// Numbers the other way round.
fn back(alloc: Global, numbers: &[u32]) -> Mem<Vec<u32>>
    requires { IsPermutation numbers.now }
    ensures back { IfOk result (λ old. (n : ℕ) → moved old.items (moved numbers.now n) ≡ n) }
    ensures length { IfOk result (λ old. length old.items ≡ length numbers.now) }
{
    let mut old = vec![in alloc; 0; numbers.len()]?;
    for number in 0..numbers.len() {
        old[numbers[number] as usize] = number as u32;
    }
    Ok(old)
}

impl Moves {
    /// The way back, where no two numbers become one.
    pub fn inverse(&self, alloc: Global) -> Mem<Moves>
        requires { ArePermutations self.now }
        ensures { IfOk result (λ back. IsBack (numbers_of self.now) (numbers_of back)) }
    {
        let units = back(alloc, self.units.as_slice())?;
        let mut forms = Vec::new(alloc);
        for unit in 0..units.len() {
            forms.push(back(alloc, self.forms_at(units[unit]))?)?;
        }
        Ok(Moves { units, forms })
    }
}
