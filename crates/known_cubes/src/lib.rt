//! What a client knows of cubes and names that the core told it of, by its own calls.
#![tactic(auto)]

mod law;

pub use law::{
    clients_know_cubes_they_were_told_of, clients_know_names_they_were_told_of,
    declarations_tell_what_fits, desk_cubes_are_those_of_the_history,
    sessions_may_ask_names_of_told_cubes,
};
