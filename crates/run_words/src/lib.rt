//! The words of a run: the options, files and numbers that they give, and the command that these ask for.
#![tactic(auto)]

mod command;
mod command_line;
mod fault;
mod given;
mod law;
mod number;
mod reading;

pub use command::{Command, GenerateCommand, RunCommand, Settings, StoreName};
pub use fault::WordsFault;
pub use given::Given;
pub use law::words_ask_for_a_command_or_have_one_fault;
pub use reading::{
    DEFAULT_SHARDS, MOST_GENERATED, MOST_ROUND_EVERY, MOST_SCRIPTS, MOST_SHARDS, read_words,
};
