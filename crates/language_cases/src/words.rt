//! Texts with their tokens and scripts with their statements, worked out by hand.

ghost use Rattle.std.specs.Prelude.{All};
ghost use Rattle.sql_words.specs.Places.{StandsIn};
ghost use Rattle.sql_words.specs.Texts.{AreTextsAt};

use crate::tables::{first_other, first_other_bytes};
use cube_language::{Piece, Token, TokenKind};
use cube_values::CallError;
use sql_words::{
    a_script_has_statements_or_one_fault, a_text_has_tokens_or_one_fault,
    a_text_may_be_cut_at_its_tokens, a_token_has_its_bytes, piece_text, split, token_text, tokens,
};
use std::alloc::{AllocError, Global};

/// The tokens of a text with their places, or what is wrong with the text.
fn tokens_shown(alloc: Global, text: &str) -> Result<String, AllocError> {
    let found = match tokens(alloc, text) {
        Ok(found) => found,
        Err(CallError::Fault(fault)) => return format!(in alloc; "{fault}"),
        Err(CallError::NoMemory) => return Err(AllocError),
    };
    let mut shown = String::new(alloc);
    for token in found.as_slice() {
        let kind = match token.kind {
            TokenKind::Word => "word",
            TokenKind::Number(n) => {
                shown.push_str(format!(in alloc; "{n}")?.as_str())?;
                ""
            }
            TokenKind::Text => "text",
            TokenKind::Open => "(",
            TokenKind::Close => ")",
            TokenKind::Comma => ",",
            TokenKind::Equals => "=",
            TokenKind::Star => "*",
        };
        shown.push_str(kind)?;
        shown.push_str(format!(in alloc; " {}..{} ", token.start, token.end)?.as_str())?;
    }
    Ok(shown)
}

/// The statements of a script by their places, or why it is refused.
fn pieces_shown(alloc: Global, script: &[u8]) -> Result<String, AllocError> {
    let found = match split(alloc, script) {
        Ok(found) => found,
        Err(CallError::Fault(fault)) => return format!(in alloc; "{fault}"),
        Err(CallError::NoMemory) => return Err(AllocError),
    };
    let mut shown = String::new(alloc);
    for piece in found.as_slice() {
        shown.push_str(format!(in alloc; "{}..{} ", piece.start, piece.end)?.as_str())?;
    }
    Ok(shown)
}

/// Texts with their tokens.
const TOKENS: &str = r"
SELECT x|word 0..6 word 7..8 |
||
 \t\r\n||
a\r\nb\tc |word 0..1 word 3..4 word 5..6 |
_ x5 5x|word 0..1 word 2..4 5 5..6 word 6..7 |
aaaaaaaaaaaaaaaaaaaaaaaaaaaaaaaaaaaaaaaaaaaaaaaaaaaaaaaaaaaaaaaaaaaaa9|word 0..70 |
(),=*|( 0..1 ) 1..2 , 2..3 = 3..4 * 4..5 |
COUNT(*)|word 0..5 ( 5..6 * 6..7 ) 7..8 |
1 -2|1 0..1 -2 2..4 |
5-3|5 0..1 -3 1..3 |
-1-2|-1 0..2 -2 2..4 |
00 -0 007|0 0..2 0 3..5 7 6..9 |
9223372036854775807|9223372036854775807 0..19 |
-9223372036854775808|-9223372036854775808 0..20 |
''|text 0..2 |
''''|text 0..4 |
a''b|word 0..1 text 1..3 word 3..4 |
'a''b'|text 0..6 |
'a'b'c'|text 0..3 word 3..4 text 4..7 |
'a' 'b'|text 0..3 text 4..7 |
'a\nb--c;(' x|text 0..10 word 11..12 |
'é€' x|text 0..7 word 8..9 |
--5||
5--3|5 0..1 |
a -- b|word 0..1 |
a--b\nc|word 0..1 word 5..6 |
a---5\r\n-5|word 0..1 -5 7..9 |
a -- 'x\n'y' -- ;|word 0..1 text 8..11 |
-- é #\n#|BadByte 8|
";

/// Texts that are no tokens, and why.
const FAULTS: &str = r#"
a # b|BadByte 2|
-|BadByte 0|
a -|BadByte 2|
-a|BadByte 0|
- 5|BadByte 0|
-'a'|BadByte 0|
+5|BadByte 0|
5.0|BadByte 1|
a;b|BadByte 1|
;|BadByte 0|
"a"|BadByte 0|
a\x00|BadByte 1|
a\x0bb|BadByte 1|
a\x0cb|BadByte 1|
a\xc2\xa0b|BadByte 1|
é|BadByte 0|
aé|BadByte 1|
'|UnclosedText 0|
'ab|UnclosedText 0|
'''|UnclosedText 0|
'a''|UnclosedText 0|
a 'b' 'c -- ;|UnclosedText 6|
9223372036854775808|NumberTooWide 0|
-9223372036854775809|NumberTooWide 0|
x99 99999999999999999999999999|NumberTooWide 4|
a 99999999999999999999 # 'b|NumberTooWide 2|
# 'b|BadByte 0|
'b #|UnclosedText 0|
"#;

#[test]
fn texts_have_their_tokens(rt: HostRuntime) {
    a_text_has_tokens_or_one_fault();
    assert_eq!(rt; first_other(rt.alloc(), TOKENS, tokens_shown), Ok(None));
}

#[test]
fn other_texts_have_a_fault(rt: HostRuntime) {
    assert_eq!(rt; first_other(rt.alloc(), FAULTS, tokens_shown), Ok(None));
}

/// The texts of tokens, each in brackets.
fn token_texts(alloc: Global, text: &str, tokens: &[Token]) -> Result<String, AllocError>
    requires { All (StandsIn text.now) tokens.now }
{
    let mut shown = String::new(alloc);
    for token in tokens {
        shown.push_str("[")?;
        shown.push_str(token_text(text, token))?;
        shown.push_str("]")?;
    }
    Ok(shown)
}

/// The texts of a text's tokens.
fn token_texts_shown(alloc: Global, text: &str) -> Result<String, AllocError> {
    a_token_has_its_bytes();
    a_text_may_be_cut_at_its_tokens();
    match tokens(alloc, text) {
        Ok(found) => token_texts(alloc, text, found.as_slice()),
        Err(_) => String::from_str(alloc, "no tokens"),
    }
}

const TOKEN_TEXTS: &str = r"
 SELECT 'a''é',-5 -- x|[SELECT]['a''é'][,][-5]|
";

#[test]
fn tokens_give_their_text(rt: HostRuntime) {
    assert_eq!(rt;
        first_other(rt.alloc(), TOKEN_TEXTS, token_texts_shown),
        Ok(None)
    );
}

/// Scripts with the places of their statements, or why they are refused.
const SCRIPTS: &str = r"
||
 \t\r\n||
-- only||
-- a\n -- b;\n||
;;||
 ; -- a;\n ;\n||
a|0..1 |
a;|0..1 |
a;b|0..1 2..3 |
 a ; b |1..3 5..7 |
;a;;b|1..2 4..5 |
a\r\n;\r\nb|0..3 6..7 |
'a;b';c|0..5 6..7 |
'a'';b';c|0..7 8..9 |
''';';c|0..5 6..7 |
'';c|0..2 3..4 |
a -- b;c\nd;e|0..10 11..12 |
-- it's\na;b|8..9 10..11 |
'--';a|0..4 5..6 |
'a;b|0..4 |
a;'b;c -- d|0..1 2..11 |
a;-- c|0..1 |
a -- c|0..6 |
a -- c;|0..7 |
a--;b|0..5 |
-;b|0..1 2..3 |
- -;--;\na|0..3 8..9 |
\xef\xbb\xbfa;b|0..4 5..6 |
'é';€|0..4 5..8 |
\xffa|NotUtf8 0|
a;\xff;b|NotUtf8 2|
ab\xc3|NotUtf8 2|
a\xe2\x82|NotUtf8 1|
\xed\xa0\x80|NotUtf8 0|
-- \xff|NotUtf8 3|
";

#[test]
fn scripts_have_their_statements(rt: HostRuntime) {
    a_script_has_statements_or_one_fault();
    assert_eq!(rt;
        first_other_bytes(rt.alloc(), SCRIPTS, pieces_shown),
        Ok(None)
    );
}

/// The texts of statements, each in brackets.
fn texts_shown(alloc: Global, script: &[u8], pieces: &[Piece]) -> Result<String, AllocError>
    requires { AreTextsAt script.now pieces.now }
{
    let mut shown = String::new(alloc);
    for piece in pieces {
        shown.push_str("[")?;
        shown.push_str(piece_text(script, piece))?;
        shown.push_str("]")?;
    }
    Ok(shown)
}

/// The texts of a script's statements.
fn piece_texts_shown(alloc: Global, script: &[u8]) -> Result<String, AllocError> {
    match split(alloc, script) {
        Ok(found) => texts_shown(alloc, script, found.as_slice()),
        Err(_) => String::from_str(alloc, "no statements"),
    }
}

const PIECE_TEXTS: &str = r"
 SELECT 'a;é' ; -- x\nBEGIN; €|[SELECT 'a;é' ][BEGIN][€]|
";

#[test]
fn statements_give_their_text(rt: HostRuntime) {
    assert_eq!(rt;
        first_other_bytes(rt.alloc(), PIECE_TEXTS, piece_texts_shown),
        Ok(None)
    );
}

/// How many statements a script has and where the last ends, or why the script is refused.
fn last_shown(alloc: Global, script: &[u8]) -> Result<String, AllocError> {
    match split(alloc, script) {
        Ok(found) => {
            let end = found.as_slice().last().map_or(0, |piece| piece.end);
            format!(in alloc; "{} to {end}", found.len())
        }
        Err(CallError::Fault(fault)) => format!(in alloc; "{fault}"),
        Err(CallError::NoMemory) => Err(AllocError),
    }
}

/// Large scripts with what is said of their statements, or why they are refused.
const LARGE_SCRIPTS: &str = r"
{65536 a;}|65536 to 131071|
{65536 a;}{9  ;--\n;}|65536 to 131071|
{65537 a;}|TooManyStatements|
{65536 a;} -|TooManyStatements|
{131072 a;}|TooManyStatements|
{65536 x}|1 to 65536|
{70000  }{65536 x}{70000 ; }|1 to 135536|
{65537 x}|StatementTooLong 1|
{65536 x}\n|StatementTooLong 1|
{2 a; ;}'{65535 ;}';|StatementTooLong 3|
{2 a;}{65537 x};{65537 y}|StatementTooLong 3|
{65537 x};{65536 a;}|TooManyStatements|
{65536 a;}{65537 x}|TooManyStatements|
{65537 a;}{65537 x}\xff|NotUtf8 196611|
";

#[test]
fn large_scripts_are_limited(rt: HostRuntime) {
    assert_eq!(rt;
        first_other_bytes(rt.alloc(), LARGE_SCRIPTS, last_shown),
        Ok(None)
    );
}
