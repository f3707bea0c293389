//! What the texts of a script say, one after the other.
#![tactic(auto)]

mod law;
mod said;

pub use law::a_script_says_one_list;
pub use said::Said;
