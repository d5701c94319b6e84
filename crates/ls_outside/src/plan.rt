//! The calls of an object in memory that are to fail.
ghost use Rattle.std.specs.Prelude.{◌↔◌, ◌≡◌, IsTrue};

/// Which calls are to fail, by their numbers: the first call is number 1.
#[derive(Drop)]
pub struct Plan {
    failing: Vec<u64>,
    calls: u64,
}

impl Plan {
    ghost use Rattle.ls_outside.specs.Plans.{calls_made, calls_to_fail, CountsCall, IsNextToFail};

    /// No call was made so far. A call whose number is in `failing` is to fail.
    pub fn new(failing: Vec<u64>) -> Plan
        ensures failing { calls_to_fail result ≡ failing.items }
        ensures made { calls_made result ≡ 0 }
    {
        Plan { failing, calls: 0 }
    }

    /// Counts a call, and says whether it is to fail.
    pub fn next_fails(&mut self) -> bool
        ensures fails { IsTrue result ↔ IsNextToFail self.old }
        ensures counted { CountsCall self.old self.new }
    {
        self.calls = self.calls.saturating_add(1);
        self.failing.contains(&self.calls)
    }
}
