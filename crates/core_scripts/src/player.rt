//! A session that plays its script.

use core_states::CoreSession;
use core_watches::CoreWatch;
use session_texts::SessionTexts;

/// A session of the core that plays its script, between two of its statements.
#[derive(Drop)]
pub struct ScriptPlayer {
    pub session: CoreSession,
    /// The watch that it has, if it has one.
    pub watch: Option<CoreWatch>,
    /// The texts of each cube that it was told of, with their numbers.
    pub texts: SessionTexts,
}
