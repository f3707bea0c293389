//! What the tokens of a text say.

ghost use Rattle.std.specs.Prelude.{◌≡◌, IfOk};
ghost use Rattle.std.specs.Option.{option_copied};
ghost use Rattle.cube_language.specs.Symbols.{symbol_of};
ghost use Rattle.sql_tree.specs.Reading.{aggregate_in, column_head_in, count_in, direction_in, is_sign, keyword_in, kind_in, name_in, number_in, operator_in, shown_in, size_in, text_in, value_in, verb_in};
ghost use Rattle.sql_words.specs.Places.{StandsIn};

use crate::head::{Aggregate, ColumnHead, Operator, Shown, Sign, Verb};
use crate::quote::unquoted;
use cube_language::{Direction, Keyword, Token, TokenKind, is_name, keyword_of, spells};
use cube_values::{Text, Value};
use sql_words::token_text;
use std::alloc::{AllocError, Global};

/// Whether the token says this sign.
pub(crate) fn is_sign(text: &str, token: &Token, wanted: Sign) -> bool
    requires { StandsIn text.now token.now }
    ensures { result ≡ is_sign wanted (symbol_of text.now token.now) }
{
    match token.kind {
        TokenKind::Word => match wanted {
            Sign::Keyword(keyword) => spells(keyword, token_text(text, token).as_bytes()),
            _ => false,
        },
        TokenKind::Open => wanted == Sign::Open,
        TokenKind::Close => wanted == Sign::Close,
        TokenKind::Comma => wanted == Sign::Comma,
        TokenKind::Star => wanted == Sign::Star,
        TokenKind::Number(_) | TokenKind::Text | TokenKind::Equals => false,
    }
}

/// The keyword that the token says.
#[tactic(auto, using(crate::proofs::Keywords::keyword_in_word))]
fn keyword_in(text: &str, token: &Token) -> Option<Keyword>
    requires { StandsIn text.now token.now }
    ensures { result ≡ keyword_in (symbol_of text.now token.now) }
{
    match token.kind {
        TokenKind::Word => keyword_of(token_text(text, token).as_bytes()),
        _ => None,
    }
}

/// The name that the token says.
#[tactic(auto, using(crate::proofs::Keywords::name_in_word))]
pub(crate) fn name_in<'a>(text: &'a str, token: &Token) -> Option<&'a str>
    requires { StandsIn text.now token.now }
    ensures { option_copied result ≡ name_in (symbol_of text.now token.now) }
{
    match token.kind {
        TokenKind::Word => {
            let word = token_text(text, token);
            if is_name(word.as_bytes()) {
                Some(word)
            } else {
                None
            }
        }
        _ => None,
    }
}

/// The value that the token says.
#[tactic(auto, using(crate::proofs::Keywords::value_in_word))]
pub(crate) fn value_in(
    alloc: Global,
    text: &str,
    token: &Token,
) -> Result<Option<Value>, AllocError>
    requires { StandsIn text.now token.now }
    ensures { IfOk result (λ value. value ≡ value_in (symbol_of text.now token.now)) }
{
    match token.kind {
        TokenKind::Number(n) => Ok(Some(Value::Int(n))),
        TokenKind::Text => Ok(Some(Value::Text(unquoted(alloc, token_text(text, token))?))),
        _ => Ok(None),
    }
}

/// The text in quotes that the token says.
#[tactic(auto, using(crate::proofs::Keywords::text_in_word))]
pub(crate) fn text_in(alloc: Global, text: &str, token: &Token) -> Result<Option<Text>, AllocError>
    requires { StandsIn text.now token.now }
    ensures { IfOk result (λ inner. inner ≡ text_in (symbol_of text.now token.now)) }
{
    match token.kind {
        TokenKind::Text => Ok(Some(unquoted(alloc, token_text(text, token))?)),
        _ => Ok(None),
    }
}

/// The number that the token says, where it has no minus sign.
#[tactic(auto, using(crate::proofs::Keywords::count_in_word))]
pub(crate) fn count_in(text: &str, token: &Token) -> Option<u64>
    ensures { result ≡ count_in (symbol_of text.now token.now) }
{
    match token.kind {
        TokenKind::Number(n) => u64::try_from(n).ok(),
        _ => None,
    }
}

/// The number that the token says.
#[tactic(auto, using(crate::proofs::Keywords::number_in_word))]
pub(crate) fn number_in(text: &str, token: &Token) -> Option<i64>
    ensures { result ≡ number_in (symbol_of text.now token.now) }
{
    match token.kind {
        TokenKind::Number(n) => Some(n),
        _ => None,
    }
}

/// The number of 32 bits without a sign that the token says.
#[tactic(auto, using(crate::proofs::Keywords::size_in_word))]
pub(crate) fn size_in(text: &str, token: &Token) -> Option<u32>
    ensures { result ≡ size_in (symbol_of text.now token.now) }
{
    match token.kind {
        TokenKind::Number(n) => u32::try_from(n).ok(),
        _ => None,
    }
}

/// How a condition goes on with the token.
pub(crate) fn operator_in(text: &str, token: &Token) -> Option<Operator>
    requires { StandsIn text.now token.now }
    ensures { result ≡ operator_in (symbol_of text.now token.now) }
{
    if token.kind == TokenKind::Equals {
        return Some(Operator::Equal);
    }
    match keyword_in(text, token)? {
        Keyword::In => Some(Operator::In),
        Keyword::Between => Some(Operator::Between),
        _ => None,
    }
}

/// The aggregate whose word the token says.
pub(crate) fn aggregate_in(text: &str, token: &Token) -> Option<Aggregate>
    requires { StandsIn text.now token.now }
    ensures { result ≡ aggregate_in (symbol_of text.now token.now) }
{
    match keyword_in(text, token)? {
        Keyword::Sum => Some(Aggregate::Sum),
        Keyword::Min => Some(Aggregate::Min),
        Keyword::Max => Some(Aggregate::Max),
        Keyword::Avg => Some(Aggregate::Avg),
        Keyword::Count => Some(Aggregate::Count),
        _ => None,
    }
}

/// The form of statement that the token begins.
pub(crate) fn verb_in(text: &str, token: &Token) -> Option<Verb>
    requires { StandsIn text.now token.now }
    ensures { result ≡ verb_in (symbol_of text.now token.now) }
{
    match keyword_in(text, token)? {
        Keyword::Select => Some(Verb::Select),
        Keyword::Insert => Some(Verb::Insert),
        Keyword::Load => Some(Verb::Load),
        Keyword::Delete => Some(Verb::Delete),
        Keyword::Begin => Some(Verb::Begin),
        Keyword::Commit => Some(Verb::Commit),
        Keyword::Rollback => Some(Verb::Rollback),
        Keyword::Flush => Some(Verb::Flush),
        Keyword::Purge => Some(Verb::Purge),
        Keyword::Show => Some(Verb::Show),
        Keyword::Create => Some(Verb::Create),
        Keyword::Watch => Some(Verb::Watch),
        _ => None,
    }
}

/// What a SHOW shows whose word the token says.
pub(crate) fn shown_in(text: &str, token: &Token) -> Option<Shown>
    requires { StandsIn text.now token.now }
    ensures { result ≡ shown_in (symbol_of text.now token.now) }
{
    match keyword_in(text, token)? {
        Keyword::Epochs => Some(Shown::Epochs),
        Keyword::Watch => Some(Shown::Watch),
        _ => None,
    }
}

/// The direction of a key that the token says.
pub(crate) fn direction_in(text: &str, token: &Token) -> Option<Direction>
    requires { StandsIn text.now token.now }
    ensures { result ≡ direction_in (symbol_of text.now token.now) }
{
    match keyword_in(text, token)? {
        Keyword::Asc => Some(Direction::Asc),
        Keyword::Desc => Some(Direction::Desc),
        _ => None,
    }
}

/// The kind of column that the token begins.
pub(crate) fn column_head_in(text: &str, token: &Token) -> Option<ColumnHead>
    requires { StandsIn text.now token.now }
    ensures { result ≡ column_head_in (symbol_of text.now token.now) }
{
    match keyword_in(text, token)? {
        Keyword::Dim => Some(ColumnHead::Dim),
        Keyword::Metric => Some(ColumnHead::Metric),
        _ => None,
    }
}

/// Whether a dimension of which the token says the kind has texts.
pub(crate) fn kind_in(text: &str, token: &Token) -> Option<bool>
    requires { StandsIn text.now token.now }
    ensures { result ≡ kind_in (symbol_of text.now token.now) }
{
    match keyword_in(text, token)? {
        Keyword::Text => Some(true),
        Keyword::Int => Some(false),
        _ => None,
    }
}
