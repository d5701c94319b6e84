//! Permutations, with the way back: numbers below a length change places, so that no two become one.
ghost use Rattle.std.specs.Prelude.{◌≡◌, ◌≢◌, ℕ, ◌<◌, ◌≤◌, ◌^◌, length, IfOk};
ghost use Rattle.moves.specs.Numbers.{moved};
ghost use Rattle.program_moves.specs.Permutations.{AreInverse};

use ls_base::Mem;
use std::alloc::Global;

/// For each number its new one, and for each new number the old one.
#[derive(Drop)]
pub(crate) struct Permutation {
    pub forth: Vec<u32>,
    pub back: Vec<u32>,
}

/// The numbers below a length, in order.
fn counted(alloc: Global, len: u32) -> Mem<Vec<u32>>
    ensures length { IfOk result (λ numbers. length numbers.items ≡ len) }
    ensures same { IfOk result (λ numbers. (n : ℕ) → moved numbers.items n ≡ n) }
{
    let mut numbers = Vec::new(alloc);
    for number in 0..len {
        numbers.push(number)?;
    }
    Ok(numbers)
}

impl Permutation {
    /// Each number below a length is sent to itself.
    pub(crate) fn same(alloc: Global, len: u32) -> Mem<Permutation>
        ensures inverse { IfOk result (λ p. AreInverse p.forth.items p.back.items) }
        ensures length { IfOk result (λ p. length p.forth.items ≡ len) }
        ensures same { IfOk result (λ p. (n : ℕ) → moved p.forth.items n ≡ n) }
    {
        let forth = counted(alloc, len)?;
        let back = counted(alloc, len)?;
        Ok(Permutation { forth, back })
    }

    /// Sends a number to another. What was sent there is sent to where the number was sent before, and all else stays.
    pub(crate) fn send(&mut self, from: u32, to: u32)
        requires inverse { AreInverse self.old.forth.items self.old.back.items }
        requires from { from < length self.old.forth.items }
        requires to { to < length self.old.forth.items }
        ensures inverse { AreInverse self.new.forth.items self.new.back.items }
        ensures length { length self.new.forth.items ≡ length self.old.forth.items }
        ensures sent { moved self.new.forth.items from ≡ to }
        ensures others { (n : ℕ) → n ≢ from → moved self.old.forth.items n ≢ to → moved self.new.forth.items n ≡ moved self.old.forth.items n }
    {
        let place = self.forth[from as usize];
        let other = self.back[to as usize];
        self.forth[other as usize] = place;
        self.back[place as usize] = other;
        self.forth[from as usize] = to;
        self.back[to as usize] = from;
    }
}
