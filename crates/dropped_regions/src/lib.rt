//! The region of a DELETE over the core: the box of its rows by coordinates, which the session's caller finds, and
//! dropping the box on every shard.
#![tactic(auto)]

mod boxes;
mod codes;
mod drops;
mod law;
mod plans;

pub use boxes::box_of_delete;
pub use codes::encode_conditions;
pub use drops::drop_region;
pub use law::boxes_stay_after_calls;
