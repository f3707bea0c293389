//! Sessions of the core play their scripts: one session each statement by its form, one after the other, and then the end; and
//! all sessions on threads, which are then on record in one run.
#![tactic(auto)]

mod desk_forms;
mod law;
mod on_record;
mod on_threads;
mod player;
mod playing;
mod scripts;
mod serving;
mod statements;
mod told_files;
mod watching;
mod work;

pub use law::played_scripts_are_in_their_history;
pub use on_record::scripts_on_threads_end_in_a_run;
pub use on_threads::play_on_threads;
pub use player::ScriptPlayer;
pub use scripts::play_to_the_end;
pub use serving::an_opened_core_serves_its_sessions;
pub use told_files::FromShelf;
pub use work::{PlayRoom, ScriptWork};
