//! A session's watch beside its other statements: by their calls its holders keep what they hold.
#![tactic(auto)]

mod law;

pub use law::other_calls_leave_the_holders;
