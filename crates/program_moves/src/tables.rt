//! Tables of new numbers: what goes on gets the number that it has in the next program, all else one that nothing has there.
ghost use Rattle.std.specs.Prelude.{◌≡◌, ℕ, ◌+◌, ◌<◌, ◌≤◌, ◌^◌, false, length, slice_get, true, Some, IfOk};
ghost use Rattle.moves.specs.Numbers.{moved, numbers_of, IsPermutation, ArePermutations};
ghost use Rattle.scheme_model.specs.Program.{prelude_unit};
ghost use Rattle.program_moves.specs.Permutations.{AreInverse};
ghost use Rattle.program_moves.specs.Sent as sent;
ghost use Rattle.program_moves.specs.Sent.{number_in, renumbering_of, Outside, pair_at, IsForm, IsPaired, ArePaired, AreHomes};

use crate::permutation::Permutation;
use form_pairs::UnitPair;
use ls_base::Mem;
use moves::Moves;
use std::alloc::Global;

/// The numbers of units that can be worked on. The next one is that of the prelude.
const UNITS: u32 = 128;

/// The numbers before and after of a unit in which included forms are at home. Its own forms keep theirs.
#[derive(Clone, Copy)]
pub struct Home {
    pub before: u32,
    pub after: u32,
}

/// Sends the numbers below a count behind a size, each by as much.
fn send_behind(numbers: &mut Permutation, count: u32, size: u32)
    requires inverse { AreInverse numbers.old.forth.items numbers.old.back.items }
    requires within { count + size ≤ length numbers.old.forth.items }
    requires same { (n : ℕ) → moved numbers.old.forth.items n ≡ n }
    ensures inverse { AreInverse numbers.new.forth.items numbers.new.back.items }
    ensures length { length numbers.new.forth.items ≡ length numbers.old.forth.items }
    ensures sent { (n : ℕ) → n < count → moved numbers.new.forth.items n ≡ size + n }
    ensures between { (n : ℕ) → count ≤ n → n < size → moved numbers.new.forth.items n ≡ n }
{
    for number in 0..count {
        numbers.send(number, size + number);
    }
}

/// Sends so many numbers, from one on, to those from another on.
fn send_run(numbers: &mut Permutation, from: u32, to: u32, count: u32)
    requires inverse { AreInverse numbers.old.forth.items numbers.old.back.items }
    requires from { from + count ≤ length numbers.old.forth.items }
    requires to { to + count ≤ length numbers.old.forth.items }
    ensures inverse { AreInverse numbers.new.forth.items numbers.new.back.items }
    ensures length { length numbers.new.forth.items ≡ length numbers.old.forth.items }
    ensures sent { (i : ℕ) → i < count → moved numbers.new.forth.items (from + i) ≡ to + i }
    ensures others { (n : ℕ) → Outside from count n → Outside to count (moved numbers.old.forth.items n) →
        moved numbers.new.forth.items n ≡ moved numbers.old.forth.items n }
{
    for place in 0..count {
        numbers.send(from + place, to + place);
    }
}

/// The new numbers of the forms of a unit that goes on.
fn form_numbers(alloc: Global, pair: &UnitPair) -> Mem<Vec<u32>>
    requires { IsPaired pair.now }
    ensures permutes { IfOk result (λ numbers. IsPermutation numbers.items) }
    ensures sent { IfOk result (λ numbers. (f : ℕ) → f < pair.now.forms_before → moved numbers.items f ≡ number_in pair.now f) }
{
    let before = pair.forms_before as u32;
    let after = pair.forms_after as u32;
    let front = pair.front as u32;
    let end = pair.end as u32;
    let mut numbers = Permutation::same(alloc, before + after)?;
    send_behind(&mut numbers, before, after);
    send_run(&mut numbers, 0, 0, front);
    send_run(&mut numbers, before - end, after - end, end);
    Ok(numbers.forth)
}

/// Whether included forms are at home in a unit.
fn is_home(homes: &[Home], unit: u32) -> bool
    ensures { result ≡ sent.is_home homes.now unit }
{
    for home in homes {
        if home.before == unit {
            return true;
        }
    }
    false
}

/// The pair of a unit, if it goes on.
fn pair_of(pairs: &[UnitPair], unit: usize) -> Option<UnitPair>
    ensures { result ≡ pair_at pairs.now unit }
{
    for pair in pairs {
        if pair.before == unit {
            return Some(*pair);
        }
    }
    None
}

/// The new numbers of a unit's forms. Those of a home keep theirs, and so do those of a unit that doesn't go on.
fn forms_of(alloc: Global, pairs: &[UnitPair], homes: &[Home], unit: u32) -> Mem<Vec<u32>>
    requires pairs { ArePaired pairs.now }
    requires unit { unit < prelude_unit }
    ensures permutes { IfOk result (λ numbers. IsPermutation numbers.items) }
    ensures home { IfOk result (λ numbers. sent.is_home homes.now unit ≡ true → (f : ℕ) → moved numbers.items f ≡ f) }
    ensures sent { IfOk result (λ numbers. sent.is_home homes.now unit ≡ false → (f : ℕ) → IsForm pairs.now unit f →
        moved numbers.items f ≡ (renumbering_of pairs.now).form unit f) }
{
    if is_home(homes, unit) {
        return Ok(Vec::new(alloc));
    }
    match pair_of(pairs, unit as usize) {
        Some(pair) => form_numbers(alloc, &pair),
        None => Ok(Vec::new(alloc)),
    }
}

/// Sends each unit that goes on to its number after.
fn send_pairs(numbers: &mut Permutation, pairs: &[UnitPair])
    requires inverse { AreInverse numbers.old.forth.items numbers.old.back.items }
    requires length { prelude_unit < length numbers.old.forth.items }
    requires pairs { ArePaired pairs.now }
    requires behind { (u : ℕ) → u < prelude_unit → moved numbers.old.forth.items u ≡ prelude_unit + 1 + u }
    requires prelude { moved numbers.old.forth.items prelude_unit ≡ prelude_unit }
    ensures inverse { AreInverse numbers.new.forth.items numbers.new.back.items }
    ensures length { length numbers.new.forth.items ≡ length numbers.old.forth.items }
    ensures sent { (u : ℕ) → u ≤ prelude_unit → moved numbers.new.forth.items u ≡ (renumbering_of pairs.now).unit u }
{
    for place in 0..pairs.len() {
        let pair = pairs[place];
        numbers.send(pair.before as u32, pair.after as u32);
    }
}

/// Sends each home to its number after.
fn send_homes(numbers: &mut Permutation, pairs: &[UnitPair], homes: &[Home])
    requires inverse { AreInverse numbers.old.forth.items numbers.old.back.items }
    requires length { prelude_unit < length numbers.old.forth.items }
    requires homes { AreHomes pairs.now homes.now }
    requires sent { (u : ℕ) → u ≤ prelude_unit → moved numbers.old.forth.items u ≡ (renumbering_of pairs.now).unit u }
    ensures inverse { AreInverse numbers.new.forth.items numbers.new.back.items }
    ensures length { length numbers.new.forth.items ≡ length numbers.old.forth.items }
    ensures homes { (i : ℕ) (h : Home) → slice_get homes.now i ≡ Some h → moved numbers.new.forth.items h.before ≡ h.after }
    ensures others { (u : ℕ) → u ≤ prelude_unit → sent.is_home homes.now u ≡ false → moved numbers.new.forth.items u ≡ (renumbering_of pairs.now).unit u }
{
    for place in 0..homes.len() {
        let home = homes[place];
        numbers.send(home.before, home.after);
    }
}

/// The new numbers of units.
fn unit_numbers(alloc: Global, pairs: &[UnitPair], homes: &[Home]) -> Mem<Vec<u32>>
    requires pairs { ArePaired pairs.now }
    requires homes { AreHomes pairs.now homes.now }
    ensures permutes { IfOk result (λ numbers. IsPermutation numbers.items) }
    ensures length { IfOk result (λ numbers. prelude_unit < length numbers.items) }
    ensures homes { IfOk result (λ numbers. (i : ℕ) (h : Home) → slice_get homes.now i ≡ Some h → moved numbers.items h.before ≡ h.after) }
    ensures others { IfOk result (λ numbers. (u : ℕ) → u ≤ prelude_unit → sent.is_home homes.now u ≡ false →
        moved numbers.items u ≡ (renumbering_of pairs.now).unit u) }
{
    let mut numbers = Permutation::same(alloc, 2 * UNITS + 1)?;
    send_behind(&mut numbers, UNITS, UNITS + 1);
    send_pairs(&mut numbers, pairs);
    send_homes(&mut numbers, pairs, homes);
    Ok(numbers.forth)
}

/// The numbers that units and forms get in the next program. A unit that goes on and its forms get those of its pair, and a home its
/// number after. A unit that doesn't go on gets a number that no unit has, and a form that doesn't one that no form of its unit has.
pub fn moves_of(alloc: Global, pairs: &[UnitPair], homes: &[Home]) -> Mem<Moves>
    requires pairs { ArePaired pairs.now }
    requires homes { AreHomes pairs.now homes.now }
    ensures permutes { IfOk result (λ moves. ArePermutations moves) }
    // What isn't a home gets the number that the pairs tell, and so do its forms.
    ensures units { IfOk result (λ moves. (u : ℕ) → u ≤ prelude_unit → sent.is_home homes.now u ≡ false →
        (numbers_of moves).unit u ≡ (renumbering_of pairs.now).unit u) }
    ensures forms { IfOk result (λ moves. (u f : ℕ) → u < prelude_unit → sent.is_home homes.now u ≡ false → IsForm pairs.now u f →
        (numbers_of moves).form u f ≡ (renumbering_of pairs.now).form u f) }
    // A home gets its number after, and the forms of a home and of the prelude keep theirs.
    ensures homes { IfOk result (λ moves. (i : ℕ) (h : Home) → slice_get homes.now i ≡ Some h → (numbers_of moves).unit h.before ≡ h.after) }
    ensures at_home { IfOk result (λ moves. (u f : ℕ) → u < prelude_unit → sent.is_home homes.now u ≡ true → (numbers_of moves).form u f ≡ f) }
    ensures prelude { IfOk result (λ moves. (f : ℕ) → (numbers_of moves).form prelude_unit f ≡ f) }
{
    let units = unit_numbers(alloc, pairs, homes)?;
    let mut forms = Vec::new(alloc);
    for unit in 0..UNITS {
        forms.push(forms_of(alloc, pairs, homes, unit)?)?;
    }
    Ok(Moves { units, forms })
}
