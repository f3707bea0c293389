//! The tokens of a statement's text, and the statements of a script by their places.
#![tactic(auto)]

mod law;
mod number;
mod part;
mod piece;
mod place;
mod quote;
mod token;

pub use cube_language::{Piece, Pieces, ScriptFault, Token, TokenFault, TokenKind, Tokens};
pub use law::{
    a_script_has_statements_or_one_fault, a_text_has_tokens_or_one_fault,
    a_text_may_be_cut_at_its_tokens, a_token_has_its_bytes,
};
pub use piece::{piece_text, split};
pub use place::token_text;
pub use token::tokens;
