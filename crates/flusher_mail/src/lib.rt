//! The flusher's calls on its own mail: it takes a FLUSH, and replies to it once its round has ended.
#![tactic(auto)]

mod answers;
mod law;
mod mail;

pub use law::the_flusher_begins_free;
pub use mail::{reply_flush, take_flush};
