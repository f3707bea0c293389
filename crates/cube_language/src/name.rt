//! Names of cubes and columns.

ghost use Rattle.std.specs.Prelude.{◌≡◌};
ghost use Rattle.std.specs.List.{list_all};
ghost use Rattle.cube_language.specs.Names.{begins_name, continues_name, is_word, is_name};

use crate::keyword::is_keyword;

/// The longest name, in bytes.
pub const NAME_BYTES: usize = 64;

/// Whether a name may begin with the byte: a letter of ASCII or `_`.
pub fn begins_name(byte: u8) -> bool
    ensures { result ≡ begins_name byte }
{
    byte.is_ascii_alphabetic() || byte == b'_'
}

/// Whether a name may go on with the byte: a letter of ASCII, a digit or `_`.
pub fn continues_name(byte: u8) -> bool
    ensures { result ≡ continues_name byte }
{
    byte.is_ascii_alphanumeric() || byte == b'_'
}

fn all_continue(bytes: &[u8]) -> bool
    ensures { result ≡ list_all continues_name bytes.now }
{
    bytes.iter().all(|byte| continues_name(*byte))
}

/// Whether the bytes have the form of a word, which a keyword has too.
pub fn is_word(bytes: &[u8]) -> bool
    ensures { result ≡ is_word bytes.now }
{
    match bytes {
        [] => false,
        [first, rest @ ..] => begins_name(*first) && all_continue(rest),
    }
}

/// Whether the bytes are a name: a word of at most 64 bytes that is no keyword.
pub fn is_name(bytes: &[u8]) -> bool
    ensures { result ≡ is_name bytes.now }
{
    is_word(bytes) && bytes.len() <= NAME_BYTES && !is_keyword(bytes)
}
