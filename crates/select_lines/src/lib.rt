//! What a SELECT is answered with: the table of the groups that were folded for it, and of that the first lines.
#![tactic(auto)]

mod lines;

pub use lines::select_lines;
