//! Writers of numbers and of quoted texts, which all printed forms share.

ghost use Rattle.std.specs.Prelude.{◌≡◌, ◌++◌, decimal, OnOk};
ghost use Rattle.std.specs.Fmt.{signed_decimal};
ghost use Rattle.cube_language.specs.Quotes.{quoted};

use itoa::Buffer;
use std::alloc::AllocError;

/// Appends a number in decimal digits, without leading zeros.
pub fn put_u64(out: &mut Vec<u8>, n: u64) -> Result<(), AllocError>
    ensures { OnOk result (out.new.items ≡ out.old.items ++ decimal n) }
{
    out.extend_from_slice(Buffer::new().format(n).as_bytes())
}

/// As `put_u64`, of 128 bits.
pub fn put_u128(out: &mut Vec<u8>, n: u128) -> Result<(), AllocError>
    ensures { OnOk result (out.new.items ≡ out.old.items ++ decimal n) }
{
    out.extend_from_slice(Buffer::new().format(n).as_bytes())
}

/// Appends a number in decimal digits, with a `-` before it where it is negative.
pub fn put_i64(out: &mut Vec<u8>, n: i64) -> Result<(), AllocError>
    ensures { OnOk result (out.new.items ≡ out.old.items ++ signed_decimal n) }
{
    out.extend_from_slice(Buffer::new().format(n).as_bytes())
}

/// As `put_i64`, of 128 bits.
pub fn put_i128(out: &mut Vec<u8>, n: i128) -> Result<(), AllocError>
    ensures { OnOk result (out.new.items ≡ out.old.items ++ signed_decimal n) }
{
    out.extend_from_slice(Buffer::new().format(n).as_bytes())
}

/// Appends a text in quotes, with each quote in it twice.
pub fn put_quoted(out: &mut Vec<u8>, text: &[u8]) -> Result<(), AllocError>
    ensures { OnOk result (out.new.items ≡ out.old.items ++ quoted text.now) }
{
    out.push(b'\'')?;
    'bytes: for byte in text {
        if *byte == b'\'' {
            out.push(b'\'')?;
        }
        out.push(*byte)?;
    }
    out.push(b'\'')?;
    Ok(())
}
