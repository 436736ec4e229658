//! Calls that are counted, of which some are named to fail.

ghost use Rattle.std.specs.Prelude.{◌≡◌, ◌==◌, ◌≤◌, IsTrue, is_ok, if◌then◌else◌};
ghost use Rattle.std.specs.List.{list_any};
ghost use Rattle.fd_base.specs.parts.Calls.{no_calls, fails_next, with_call, with_failing};
ghost use Rattle.fd_base.specs.Faults.{Rose};

use crate::seq::{Memory, Numbers};
use std::alloc::Global;
use std::marker::Model;

/// How many calls were made and how many failed, and the numbers of those that fail.
#[derive(Drop)]
pub(crate) struct CallCounter {
    made: u64,
    failing: Numbers,
    faults: u64,
}

impl Model for CallCounter {
    ghost use Rattle.fd_base.specs.parts.Calls.{Calls};

    ghost Value = { Calls };

    ghost view = { λ c. record { made = c.made; failing = c.failing; faults = c.faults } };
}

/// Whether the number is one of these.
fn contains(numbers: &[u32], number: u64) -> bool
    ensures { result ≡ list_any (λ n. n == number) numbers.now }
{
    numbers.iter().any(|n| u64::from(*n) == number)
}

impl CallCounter {
    /// No calls, and none that fails.
    pub(crate) fn new(alloc: Global) -> CallCounter
        ensures { result ≡ no_calls }
    {
        CallCounter {
            made: 0,
            failing: Numbers::new(alloc),
            faults: 0,
        }
    }

    /// Names a call that fails, by its number from 1 on.
    pub(crate) fn fail_at(&mut self, number: u32) -> Result<(), Memory>
        ensures { self.new ≡ (if is_ok result then with_failing number self.old else self.old) }
    {
        self.failing.push(number)
    }

    /// Counts one more call, and says whether it fails.
    pub(crate) fn fails(&mut self) -> bool
        ensures fails { result ≡ fails_next self.old }
        ensures counted { self.new ≡ with_call self.old }
        ensures count { self.old.faults ≤ self.new.faults }
        ensures rose { IsTrue result → Rose self.old.faults self.new.faults }
    {
        let number = self.made.saturating_add(1);
        let fails = contains(self.failing.as_slice(), number);
        self.made = number;
        if fails {
            self.faults = self.faults.saturating_add(1);
        }
        fails
    }
}
