//! The statements of the one session of a run that touch no rows, at its desk.
#![tactic(auto)]

mod answered;
mod cubes;
mod ending;
mod law;
mod refusals;
mod refusing;
mod requests;
mod rounds;
mod session;
mod start;
mod transactions;
mod unbound;

pub use answered::Answered;
pub use cubes::create_cube;
pub use ending::{close, end};
pub use law::{
    a_run_that_has_ended_is_legal, a_session_at_its_desk_is_settled, an_open_transaction_was_begun,
    cubes_of_a_desk_are_named_apart, statements_find_their_cubes, statements_on_rows_are_executed,
};
pub use refusals::{refuse_by_mode, refuse_memory, refuse_syntax};
pub use refusing::refuse;
pub use requests::{flush, purge, show_epochs};
pub use rounds::follow_commit;
pub use session::{SESSION, Session};
pub use transactions::{begin, commit, rollback};
pub use unbound::refuse_unbound;
