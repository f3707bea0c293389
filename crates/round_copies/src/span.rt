//! From where to where a round goes.

ghost use Rattle.std.specs.Prelude.{◌≡◌};
ghost use Rattle.round_copies.specs.RoundCopies.{first_epoch};

/// A round up to an epoch. It has what is above the latest safe epoch, or as a whole one everything.
#[derive(Clone, Copy, Debug, PartialEq, Eq)]
pub struct RoundSpan {
    /// The latest safe epoch.
    pub from: u64,
    pub epoch: u64,
    pub whole: bool,
}

impl RoundSpan {
    /// The epoch above which rows are copied.
    pub fn first_epoch(&self) -> u64
        ensures { result ≡ first_epoch self.now }
    {
        if self.whole { 0 } else { self.from }
    }
}
