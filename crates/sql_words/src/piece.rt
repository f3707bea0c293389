//! The statements of a script, by their places.

ghost use Rattle.std.specs.Prelude.{◌≡◌, ◌≤◌, drop, length, IfOk, IfSome, IfNone, IsUtf8};
ghost use Rattle.std.specs.List.{position_from, prefix_len};
ghost use Rattle.cube_values.specs.Faults.{IfFault};
ghost use Rattle.cube_language.specs.Pieces.{IsScript, HasScriptFault, is_long};
ghost use Rattle.sql_words.specs.Fronts.{goes_on, is_plain, IsBehindBody};
ghost use Rattle.sql_words.specs.Texts.{AreTextsAt, IsTextAt, SplitsInFew, SplitsInMany, piece_bytes};

use crate::part::{behind_gap, part_len};
use cube_language::{MOST_STATEMENT_BYTES, MOST_STATEMENTS, Piece, Pieces, ScriptFault};
use cube_values::CallError;
use std::alloc::{AllocError, Global};
use std::str;

/// Whether a statement goes on here: the script does not end, and no semicolon stands here.
fn goes_on(bytes: &[u8]) -> bool
    ensures { result ≡ goes_on bytes.now }
{
    match bytes {
        [] => false,
        [first, ..] => *first != b';',
    }
}

/// Whether the byte is a part by itself whatever comes next, and ends no statement.
fn is_plain(byte: u8) -> bool
    ensures { result ≡ is_plain byte }
{
    byte != b';' && byte != b'\'' && byte != b'-'
}

/// How many plain bytes stand at the front.
fn plain_len(bytes: &[u8]) -> usize
    ensures { result ≡ prefix_len is_plain bytes.now }
{
    bytes.iter().take_while(|byte| is_plain(**byte)).count()
}

/// What stands behind the plain bytes at the front.
#[tactic(auto, using(crate::proofs::Prefixes::prefix_within))]
fn behind_plain(bytes: &[u8]) -> &[u8]
    ensures { result.now ≡ drop (prefix_len is_plain bytes.now) bytes.now }
{
    let (_, behind) = bytes.split_at(plain_len(bytes));
    behind
}

/// What stands behind the text of a statement: the semicolon by itself that ends it, or nothing.
#[tactic(auto, using(crate::proofs::Bodies::body_shorter, crate::proofs::Bodies::body_more, crate::proofs::Bodies::body_plain, crate::proofs::Bodies::plain_shorter, crate::proofs::Bodies::body_all, crate::proofs::Gaps::passing_none))]
fn behind_body(bytes: &[u8]) -> &[u8]
    ensures body { IsBehindBody bytes.now result.now }
    ensures within { length result.now ≤ length bytes.now }
{
    let mut rest = behind_plain(bytes);
    'body: while goes_on(rest) {
        let (_, behind) = rest.split_at(part_len(rest));
        rest = behind_plain(behind);
    }
    rest
}

/// What stands behind the first byte, if there is one.
fn behind_end(bytes: &[u8]) -> &[u8]
    ensures { result.now ≡ drop 1 bytes.now }
{
    match bytes {
        [] => bytes,
        [_, behind @ ..] => behind,
    }
}

/// The statements of a script by their places, or None where there are more than `MOST_STATEMENTS`.
fn pieces_of(alloc: Global, script: &[u8]) -> Result<Option<Pieces>, AllocError>
    requires { IsUtf8 script.now }
    ensures some { IfOk result (λ found. IfSome found (λ pieces. SplitsInFew script.now pieces)) }
    ensures texts { IfOk result (λ found. IfSome found (λ pieces. AreTextsAt script.now pieces)) }
    ensures none { IfOk result (λ found. IfNone found (SplitsInMany script.now)) }
{
    let mut pieces = Pieces::new(alloc);
    let mut rest = script;
    'pieces: while !rest.is_empty() {
        let body = behind_gap(rest);
        let end = behind_body(body);
        rest = behind_end(end);
        if end.len() == body.len() {
            continue;
        }
        if pieces.len() == MOST_STATEMENTS {
            return Ok(None);
        }
        pieces.push(Piece {
            start: script.len() - body.len(),
            end: script.len() - end.len(),
        })?;
    }
    Ok(Some(pieces))
}

fn is_long(piece: &Piece) -> bool
    ensures { result ≡ is_long piece.now }
{
    piece.end.saturating_sub(piece.start) > MOST_STATEMENT_BYTES
}

/// The number of the first statement that is too long, counted from 1.
#[tactic(auto, using(crate::proofs::Bodies::long_here, crate::proofs::Bodies::long_later, crate::proofs::Bodies::long_nowhere))]
fn first_long(pieces: &[Piece]) -> Option<u64>
    ensures { result ≡ position_from is_long 1 pieces.now }
{
    for (i, piece) in pieces.iter().enumerate() {
        if is_long(piece) {
            return Some(i as u64 + 1);
        }
    }
    None
}

/// The statements of a script by their places, or why the script is refused whole. The text of a statement
/// begins behind the white space and the comments in front of it, and ends at the semicolon, or at the end of
/// the script. The time taken is linear in the bytes of the script, and the memory in its statements, of
/// which no more than `MOST_STATEMENTS` are kept.
pub fn split(alloc: Global, script: &[u8]) -> Result<Pieces, CallError<ScriptFault>>
    ensures found { IfOk result (λ pieces. IsScript script.now pieces) }
    ensures texts { IfOk result (λ pieces. AreTextsAt script.now pieces) }
    ensures fault { IfFault result (λ fault. HasScriptFault script.now fault) }
{
    if let Err(fault) = str::from_utf8(script) {
        let at = fault.valid_up_to() as u64;
        return Err(CallError::Fault(ScriptFault::NotUtf8 { at }));
    }
    let Some(pieces) = pieces_of(alloc, script)? else {
        return Err(CallError::Fault(ScriptFault::TooManyStatements));
    };
    match first_long(pieces.as_slice()) {
        Some(statement) => Err(CallError::Fault(ScriptFault::StatementTooLong { statement })),
        None => Ok(pieces),
    }
}

/// The text of a statement that `split` found. It is not copied.
pub fn piece_text<'a>(script: &'a [u8], piece: &Piece) -> &'a str
    requires { IsTextAt script.now piece.now }
    ensures { result.now ≡ piece_bytes script.now piece.now }
{
    str::from_utf8(&script[piece.start..piece.end]).unwrap()
}
