//! The rounds of a core, kept in a store.
#![tactic(auto)]

mod law;
mod makes_rounds;
mod making;
mod stored;

pub use law::two_images_stand_for_either;
pub use stored::StoredRounds;
