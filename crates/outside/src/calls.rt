//! The calls of a memory form: how many there were, which of them fail, and how many failed.

ghost use Rattle.std.specs.Prelude.{◌≡◌, ◌≤◌, ◌↔◌, IsTrue};
ghost use Rattle.outside.specs.Counts.{next, IsFailing};

/// The calls that a memory form has answered, numbered from 0.
#[derive(Debug, Drop)]
pub struct Calls {
    pub failing: Vec<u64>,
    pub made: u64,
    pub faults: u64,
}

impl Calls {
    /// No call yet, with the numbers of those that are to fail.
    pub fn new(failing: Vec<u64>) -> Calls
        ensures { result ≡ record { failing = failing; made = 0; faults = 0 } }
    {
        Calls {
            failing,
            made: 0,
            faults: 0,
        }
    }

    /// Whether the next call fails, whatever it asks.
    pub fn fails(&self) -> bool
        ensures { IsTrue result ↔ IsFailing self.now.failing.items self.now.made }
    {
        self.made == u64::MAX || self.failing.contains(&self.made)
    }

    /// Counts a call that is answered.
    pub fn count(&mut self)
        ensures { self.new ≡ record self.old { made = next self.old.made } }
    {
        self.made = self.made.saturating_add(1);
    }

    /// Counts a call that fails.
    pub fn count_fault(&mut self)
        ensures after { self.new ≡
            record self.old { made = next self.old.made; faults = next self.old.faults } }
        ensures later { self.old.faults ≤ self.new.faults }
    {
        self.made = self.made.saturating_add(1);
        self.faults = self.faults.saturating_add(1);
    }
}
