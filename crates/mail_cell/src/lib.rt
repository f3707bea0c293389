//! A mail: a queue of jobs with one place per client, through which each answer comes back to its client.
#![tactic(auto)]

mod answer;
mod mail;
mod place;

pub use answer::{Fetched, Taken};
pub use mail::{MOST_CLIENTS, Mail};
pub use place::{Place, Post};
