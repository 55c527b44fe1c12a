ghost use Rattle.std.specs.Prelude.{◌≡◌, ◌+◌, ◌-◌, ◌≤◌, ◌^◌, ◌↔◌, min, Contains, IsErr, IsTrue};
ghost use Rattle.sse_outside.specs.Causes.{HasCause, Rose};

use crate::Failed;

/// Which calls on a device in memory fail: their numbers, counted from 0.
#[derive(Drop)]
pub struct FailingCalls {
    pub failing: Vec<u64>,
    pub call: u64,
    pub faults: u64,
}

impl FailingCalls {
    /// No call was made yet, and those of the numbers in `failing` will fail.
    pub fn new(failing: Vec<u64>) -> FailingCalls
        ensures failing { result.failing ≡ failing }
        ensures first { result.call ≡ 0 }
        ensures none { result.faults ≡ 0 }
    {
        FailingCalls {
            failing,
            call: 0,
            faults: 0,
        }
    }

    /// Whether the number of the next call is failing.
    pub fn next_fails(&self) -> bool
        ensures { IsTrue result ↔ Contains self.now.failing.items self.now.call }
    {
        self.failing.contains(&self.call)
    }

    /// Counts a call that doesn't fail.
    pub fn pass(&mut self)
        ensures failing { self.new.failing ≡ self.old.failing }
        ensures next { self.new.call ≡ min (self.old.call + 1) (2 ^ 64 - 1) }
        ensures faults { self.new.faults ≡ self.old.faults }
    {
        self.call = self.call.saturating_add(1);
    }

    /// Counts a call that fails.
    pub fn fail(&mut self)
        ensures failing { self.new.failing ≡ self.old.failing }
        ensures next { self.new.call ≡ min (self.old.call + 1) (2 ^ 64 - 1) }
        ensures later { self.old.faults ≤ self.new.faults }
        ensures faults { Rose self.old.faults self.new.faults }
    {
        self.call = self.call.saturating_add(1);
        self.faults = self.faults.saturating_add(1);
    }

    /// Counts a call, which fails where its number is failing.
    pub fn count(&mut self) -> Result<(), Failed>
        ensures fails { IsErr result ↔ Contains self.old.failing.items self.old.call }
        ensures failing { self.new.failing ≡ self.old.failing }
        ensures next { self.new.call ≡ min (self.old.call + 1) (2 ^ 64 - 1) }
        ensures cause { HasCause self.old.faults self.new.faults result }
    {
        if self.next_fails() {
            self.fail();
            return Err(Failed);
        }
        self.pass();
        Ok(())
    }
}
