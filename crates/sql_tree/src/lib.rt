//! Statements both ways: from their text, and to their printed form.
#![tactic(auto)]

mod column;
mod condition;
mod form;
mod head;
mod item;
mod law;
mod parsing;
mod phrase;
mod printing;
mod put;
mod quote;
mod read;
mod statement;
mod symbol;
mod top;
mod written;

pub use law::{a_text_spells_or_has_one_fault, what_is_printed_spells_its_statement};
pub use parsing::parse;
pub use printing::print;
