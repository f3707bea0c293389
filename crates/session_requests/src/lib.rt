//! What a session asks besides its transactions: a round of the flusher, and a purge of every shard.
#![tactic(auto)]

mod answers;
mod calls;
mod law;
mod purges;
mod rounds;

pub use law::sessions_know_the_lse_they_saw;
pub use purges::purge_shards;
pub use rounds::ask_flush;
