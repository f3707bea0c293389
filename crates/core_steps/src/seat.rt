//! The seat of a session.
ghost use Rattle.std.specs.Prelude.{◌≡◌};

use crate::plays::HeldSnapshot;
use crate::traced::Traced;
use core_program::CoreSize;

/// A session by its number, whoever calls for it, and what it holds. It holds None once a step has failed: then it can
/// take no more.
pub struct Seat<P> {
    pub traced: Traced<P>,
    pub(crate) number: u32,
    pub(crate) size: CoreSize,
    pub(crate) held: Option<HeldSnapshot>,
    ghost shards: { size.shards ≡ 2 },
    ghost sessions: { size.sessions ≡ 3 },
}
