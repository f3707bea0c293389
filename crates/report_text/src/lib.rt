//! What a run writes: replies, the lines of its journal and the closing line, as bytes.
//!
//! A function `put_..` appends a text to a buffer, and `.._bytes` gives one in a buffer of its own. Their error
//! is want of memory: the buffer then has what was appended up to there, of which no contract speaks.
#![tactic(auto)]

mod entries;
mod items;
mod parts;
mod refusals;
mod replies;
mod tables;
mod whole;

pub use entries::{end_bytes, entry_bytes, put_end, put_entry, put_journal};
pub use refusals::put_refusal;
pub use replies::{put_head, put_numbered, put_reply, reply_bytes};
pub use tables::put_table;
pub use whole::{put_session, whole_bytes};
