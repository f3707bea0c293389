//! Words with a name or with numbers, which many lines have.

ghost use Rattle.std.specs.Prelude.{◌≡◌, ◌++◌, decimal, OnOk};

use cube_language::put_u64;
use cube_values::Text;
use std::alloc::AllocError;

/// Appends a word, which ends in a space, and a name.
pub(crate) fn put_named(out: &mut Vec<u8>, word: &[u8], name: &Text) -> Result<(), AllocError>
    ensures { OnOk result (out.new.items ≡ out.old.items ++ (word.now ++ name.now)) }
{
    out.extend_from_slice(word)?;
    out.extend_from_slice(name.as_bytes())
}

/// Appends a word, which ends in a space, and a number.
pub(crate) fn put_counted(out: &mut Vec<u8>, word: &[u8], n: u64) -> Result<(), AllocError>
    ensures { OnOk result (out.new.items ≡ out.old.items ++ (word.now ++ decimal n)) }
{
    out.extend_from_slice(word)?;
    put_u64(out, n)
}

/// Appends two numbers, each after its word, which has the spaces around it.
pub(crate) fn put_two_counted(
    out: &mut Vec<u8>,
    word: &[u8],
    n: u64,
    next_word: &[u8],
    next: u64,
) -> Result<(), AllocError>
    ensures { OnOk result (out.new.items ≡ out.old.items
        ++ (word.now ++ (decimal n ++ (next_word.now ++ decimal next)))) }
{
    put_counted(out, word, n)?;
    put_counted(out, next_word, next)
}
