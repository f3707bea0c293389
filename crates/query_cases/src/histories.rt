//! Whole answers over small histories, with the numbers worked out by hand.

mod answers;
mod transactions;
