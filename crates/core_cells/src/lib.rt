//! The calls on the cells of the core, as values, and the cells that take them.
#![tactic(auto)]

mod desk;
mod mail;
mod names;

pub use desk::{DeskAnswer, DeskCall, call_desk};
pub use mail::{MailAnswer, MailCall, call_mail};
pub use names::{NamesAnswer, NamesCall, call_names};
