//! A roll: a doubly linked list whose nodes lie in a slab and are linked by index. Each item is taken out by
//! the ticket that its push gave, wherever it stands.
#![tactic(auto)]

mod items;
mod links;
mod roll;
mod steps;
mod ticket;

pub use items::Items;
pub use roll::Roll;
pub use steps::Steps;
pub use ticket::Ticket;
