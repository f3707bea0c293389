//! What is asked of a run besides.

ghost use Rattle.core_states.specs.RunsFrom.{RunClaim};

/// A claim on runs of the core, by their opening, what they are given and their events: a reply may be
/// promised for those runs alone of which it holds. It may speak of what a session was started with.
pub trait Besides {
    ghost claim: { Self → RunClaim };
}
