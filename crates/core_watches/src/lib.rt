//! WATCH and SHOW WATCH of a session of the core.
#![tactic(auto)]

mod beginning;
mod binding;
mod following;
mod kept;
mod law;
mod on_record;
mod readers;
mod refusing;
mod showing;
mod statements;
mod watching;

pub use kept::CoreWatch;
pub use law::watches_are_kept;
pub use on_record::{shows_are_performed, watches_are_performed};
pub use readers::{readers_bind_their_queries, watches_are_bound_anew};
pub use statements::{show_watch, watch};
