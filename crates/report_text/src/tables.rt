//! Answers to queries: fields with commas between them, a line for each group.

ghost use Rattle.std.specs.Prelude.{◌≡◌, ◌++◌, codes, decimal, OnOk, replicate};
ghost use Rattle.cube_journal.specs.Replies.{field_text, fields_text, four_digits, sign_text, table_text};

use cube_language::{put_i128, put_quoted, put_u128};
use cube_values::{Field, Line};
use itoa::Buffer;
use std::alloc::AllocError;

/// Appends zeros.
fn put_zeros(out: &mut Vec<u8>, count: usize) -> Result<(), AllocError>
    ensures { OnOk result (out.new.items ≡ out.old.items ++ replicate count 48) }
{
    'zeros: for _ in 0..count {
        out.push(b'0')?;
    }
    Ok(())
}

/// Appends a number with zeros before it, up to four digits.
fn put_four_digits(out: &mut Vec<u8>, n: u16) -> Result<(), AllocError>
    ensures { OnOk result (out.new.items ≡ out.old.items ++ four_digits n) }
{
    let mut buffer = Buffer::new();
    let digits = buffer.format(n).as_bytes();
    put_zeros(out, 4usize.saturating_sub(digits.len()))?;
    out.extend_from_slice(digits)
}

/// Appends a number with four decimals.
fn put_decimal(out: &mut Vec<u8>, neg: bool, whole: u128, four: u16) -> Result<(), AllocError>
    ensures { OnOk result (out.new.items
        ≡ out.old.items ++ (sign_text neg ++ (decimal whole ++ (codes "." ++ four_digits four)))) }
{
    if neg {
        out.push(b'-')?;
    }
    put_u128(out, whole)?;
    out.push(b'.')?;
    put_four_digits(out, four)
}

/// Appends a field.
fn put_field(out: &mut Vec<u8>, field: &Field) -> Result<(), AllocError>
    ensures { OnOk result (out.new.items ≡ out.old.items ++ field_text field.now) }
{
    match field {
        Field::Text(text) => put_quoted(out, text.as_bytes()),
        Field::Whole(n) => put_i128(out, *n),
        Field::Decimal { neg, whole, four } => put_decimal(out, *neg, *whole, *four),
        Field::Null => out.extend_from_slice(b"NULL"),
    }
}

/// Appends fields with commas between them.
fn put_fields(out: &mut Vec<u8>, fields: &[Field]) -> Result<(), AllocError>
    ensures { OnOk result (out.new.items ≡ out.old.items ++ fields_text fields.now) }
{
    let mut left = fields;
    'fields: while let [field, rest @ ..] = left {
        put_field(out, field)?;
        if !rest.is_empty() {
            out.push(b',')?;
        }
        left = rest;
    }
    Ok(())
}

/// Appends the lines of an answer.
pub fn put_table(out: &mut Vec<u8>, lines: &[Line]) -> Result<(), AllocError>
    ensures { OnOk result (out.new.items ≡ out.old.items ++ table_text lines.now) }
{
    'lines: for line in lines {
        put_fields(out, line.as_slice())?;
        out.push(b'\n')?;
    }
    Ok(())
}
