//! What a token says.

use crate::keyword::Keyword;
use cube_values::Text;

/// What a token says: a keyword, another word, a number, a text or a mark.
#[derive(Clone, Debug, PartialEq, Eq, Drop)]
pub enum Symbol {
    Keyword(Keyword),
    /// A word that is no keyword.
    Word(Text),
    Number(i128),
    /// What stands in quotes.
    Text(Text),
    /// `(`
    Open,
    /// `)`
    Close,
    /// `,`
    Comma,
    /// `=`
    Equals,
    /// `*`
    Star,
}
