//! What the two files of a store keep, or what is wrong with them.
#![tactic(auto)]

mod fault;
mod front;
mod kept;
mod names;
mod pair;
mod rounds;

pub use fault::PairFault;
pub use kept::{Kept, Rounds, with_cubes};
pub use pair::{OpenedPair, StorePlace, declared_cubes, read_pair};
