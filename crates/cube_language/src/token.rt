//! The words, numbers, texts and marks of a statement.

use cube_values::Sequence;
use thiserror::Error;

/// What a token is.
#[derive(Clone, Copy, Debug, PartialEq, Eq)]
pub enum TokenKind {
    /// A letter of ASCII or `_`, then letters, digits or `_`: a keyword, a name or neither.
    Word,
    /// Digits, perhaps directly behind a `-`, with their value.
    Number(i64),
    /// Characters in quotes, where `''` stands for a quote.
    Text,
    /// `(`
    Open,
    /// `)`
    Close,
    /// `,`
    Comma,
    /// `=`
    Equals,
    /// `*`
    Star,
}

/// A token and where it stands in the text of its statement, in bytes from the text's first.
#[derive(Clone, Copy, Debug, PartialEq, Eq)]
pub struct Token {
    pub kind: TokenKind,
    /// The place of its first byte.
    pub start: usize,
    /// The place behind its last byte.
    pub end: usize,
}

/// Tokens in order.
pub type Tokens = Sequence<Token>;

/// Why a text has no tokens: what stands at a place, in bytes from the text's first.
#[derive(Clone, Copy, Debug, PartialEq, Eq, Error)]
pub enum TokenFault {
    /// A byte that begins no token.
    #[error("BadByte {at}")]
    BadByte { at: u64 },
    /// A quote whose text does not end.
    #[error("UnclosedText {at}")]
    UnclosedText { at: u64 },
    /// A number that does not fit 64 bits with a sign.
    #[error("NumberTooWide {at}")]
    NumberTooWide { at: u64 },
}
