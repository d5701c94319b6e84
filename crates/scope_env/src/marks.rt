//! Numbers that are marked, so that one is found at once.
ghost use Rattle.std.specs.Prelude.{◌≡◌, ℕ, [], true, false, IfOk, OnOk};
ghost use Rattle.scope_env.specs.Marks.{marked};

use ls_base::Mem;
use std::alloc::Global;

/// For each number whether it is marked; those behind the end aren't.
#[derive(Drop)]
pub struct Marks {
    pub marks: Vec<bool>,
}

impl Marks {
    /// No marks, which takes no memory.
    pub fn new(alloc: Global) -> Marks
        ensures { result.marks.items ≡ [] }
    {
        Marks {
            marks: Vec::new(alloc),
        }
    }

    /// Whether a number is marked.
    #[inline(always)]
    pub fn has(&self, number: usize) -> bool
        ensures { result ≡ marked self.now number }
    {
        match self.marks.get(number) {
            Some(mark) => *mark,
            None => false,
        }
    }

    /// Marks a number more.
    pub fn add(&mut self, number: usize) -> Mem<()>
        ensures kept { (n : ℕ) → marked self.new n ≡ false → marked self.old n ≡ false }
        ensures added { OnOk result (marked self.new number ≡ true) }
    {
        while self.marks.len() <= number {
            self.marks.push(false)?;
        }
        self.marks[number] = true;
        Ok(())
    }
}
