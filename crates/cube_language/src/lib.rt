//! The language of cubes texts, scripts and statements: names, declarations, statements, tokens and the
//! faults of texts, with the grammars that say what a text spells.
#![tactic(auto)]

mod bad_row;
mod cubes_fault;
mod decl;
mod item;
mod keyword;
mod misfit;
mod name;
mod piece;
mod put;
mod statement;
mod symbol;
mod syntax;
mod token;
mod utf8;
mod written;

pub use bad_row::{BadRow, Reason, TEXT_BYTES};
pub use cubes_fault::{CubesFault, SchemaFault};
pub use decl::{Column, Columns, Decl, DimDecl, DimDecls, MOST_CUBES, Names};
pub use keyword::{KEYWORDS, Keyword, is_keyword, keyword_of, keyword_text, spells};
pub use misfit::Misfit;
pub use name::{NAME_BYTES, begins_name, continues_name, is_name, is_word};
pub use piece::{MOST_STATEMENT_BYTES, MOST_STATEMENTS, Piece, Pieces, ScriptFault};
pub use put::{put_i64, put_i128, put_quoted, put_u64, put_u128};
pub use statement::{Cond, Conds, Item, Items, Key, Keys, Statement, Test, Tests, Tuples};
pub use symbol::Symbol;
pub use syntax::Syntax;
pub use token::{Token, TokenFault, TokenKind, Tokens};
pub use utf8::text_of;
pub use written::{Direction, WrittenKey, WrittenKeys};
