//! The tokens of a text.

ghost use Rattle.std.specs.Prelude.{◌≡◌, ◌<◌, false, length, IfOk, IfErr, IfSome, IfNone};
ghost use Rattle.std.specs.List.{prefix_len};
ghost use Rattle.cube_language.specs.Names.{continues_name};
ghost use Rattle.cube_language.specs.declared.token.TokenKind.TheVariants as kind;
ghost use Rattle.cube_values.specs.Faults.{IfFault};
ghost use Rattle.cube_language.specs.Tokens.{AreTokens, HasTokenFault, IsFault, fault_at};
ghost use Rattle.sql_words.specs.Fronts.{IsFront, begins_gap, begins_mark, begins_word};

use crate::number::{begins_number, number_first};
use crate::part::behind_gap;
use crate::quote::{begins_text, text_len};
use cube_language::{Token, TokenFault, TokenKind, Tokens, begins_name, continues_name};
use cube_values::CallError;
use std::alloc::Global;

fn begins_word(bytes: &[u8]) -> bool
    ensures { result ≡ begins_word bytes.now }
{
    match bytes {
        [] => false,
        [first, ..] => begins_name(*first),
    }
}

/// How many bytes the word at the front has.
fn word_len(bytes: &[u8]) -> usize
    ensures { result ≡ prefix_len continues_name bytes.now }
{
    bytes
        .iter()
        .take_while(|byte| continues_name(**byte))
        .count()
}

/// The kind of the token at the front that is one byte.
fn mark_of(bytes: &[u8]) -> Option<TokenKind>
    ensures some { IfSome result (λ kind. IsFront bytes.now kind 1) }
    ensures none { IfNone result (begins_mark bytes.now ≡ false) }
{
    match bytes {
        [b'(', ..] => Some(TokenKind::Open),
        [b')', ..] => Some(TokenKind::Close),
        [b',', ..] => Some(TokenKind::Comma),
        [b'=', ..] => Some(TokenKind::Equals),
        [b'*', ..] => Some(TokenKind::Star),
        _ => None,
    }
}

/// The kind of the token at the front and how many bytes it has, or what is wrong at this place.
#[tactic(auto, using(crate::proofs::TokenFronts::word_front))]
fn front_of(bytes: &[u8], at: u64) -> Result<(TokenKind, usize), TokenFault>
    requires some { 0 < length bytes.now }
    requires stops { begins_gap bytes.now ≡ false }
    ensures token { IfOk result (λ front. IsFront bytes.now front.0 front.1) }
    ensures fault { IfErr result (λ fault. IsFault bytes.now fault × (fault_at fault ≡ at)) }
{
    if begins_word(bytes) {
        Ok((TokenKind::Word, word_len(bytes)))
    } else if begins_text(bytes) {
        let len = text_len(bytes).ok_or(TokenFault::UnclosedText { at })?;
        Ok((TokenKind::Text, len))
    } else if begins_number(bytes) {
        let (value, len) = number_first(bytes).ok_or(TokenFault::NumberTooWide { at })?;
        Ok((TokenKind::Number(value), len))
    } else {
        let mark = mark_of(bytes).ok_or(TokenFault::BadByte { at })?;
        Ok((mark, 1))
    }
}

// For how many tokens there is room at first: those of most statements.
const USUAL_TOKENS: usize = 16;

/// The tokens of a text, or what is wrong at the first place where none stands. Both the time and the memory
/// taken are linear in the bytes of the text.
pub fn tokens(alloc: Global, text: &str) -> Result<Tokens, CallError<TokenFault>>
    ensures found { IfOk result (λ found. AreTokens text.now found) }
    ensures fault { IfFault result (λ fault. HasTokenFault text.now fault) }
{
    let bytes = text.as_bytes();
    let mut tokens = Tokens::from_vec(Vec::with_capacity(alloc, USUAL_TOKENS)?);
    let mut rest = behind_gap(bytes);
    'tokens: while !rest.is_empty() {
        let start = bytes.len() - rest.len();
        let (kind, len) = match front_of(rest, start as u64) {
            Ok(front) => front,
            Err(fault) => return Err(CallError::Fault(fault)),
        };
        tokens.push(Token {
            kind,
            start,
            end: start + len,
        })?;
        let (_, behind) = rest.split_at(len);
        rest = behind_gap(behind);
    }
    Ok(tokens)
}
