//! What an answer stands for.
ghost use Rattle.core_events.specs.Jobs.{CoreJob, JobOutcome};

/// An answer that a mail holds. By its job it stands for one outcome or for several, as the partial
/// result of a query does for many lists of rows.
pub trait StandsForOutcome {
    ghost stands_for: { CoreJob → Self → JobOutcome → Type 0 };
}
