//! Tables of cases, and the first row of a table that is shown otherwise.
//!
//! A table is a text with a row on each line and a bar behind each part of a row. The last part is what is wanted of the one
//! before it, and what stands before these two says what the row shows. In both `\n`, `\r` and `\t` are the bytes that they are
//! in Rust, `\x` with two digits is any byte, and `{3 a#,}` is `a0,a1,a2,`.

use std::alloc::{AllocError, Global};
use std::str;

// What is tried, and what is wanted of it.
fn parts_in(row: &str) -> Option<(&str, &str)> {
    let (front, wanted) = row.strip_suffix('|')?.rsplit_once('|')?;
    match front.rsplit_once('|') {
        Some((_, tried)) => Some((tried, wanted)),
        None => Some((front, wanted)),
    }
}

// The byte that a backslash makes of what stands behind it, and the rest of that.
fn byte_in(piece: &str) -> Option<(u8, &str)> {
    let mark = piece.get(..1)?;
    let rest = piece.get(1..)?;
    match mark {
        "n" => Some((b'\n', rest)),
        "r" => Some((b'\r', rest)),
        "t" => Some((b'\t', rest)),
        "x" => {
            let byte = u8::from_str_radix(rest.get(..2)?, 16).ok()?;
            Some((byte, rest.get(2..)?))
        }
        _ => None,
    }
}

// Puts the bytes of a part without braces.
fn put_plain(out: &mut Vec<u8>, part: &str) -> Option<()> {
    for (place, piece) in part.split('\\').enumerate() {
        let mut rest = piece;
        if place > 0 {
            let (byte, behind) = byte_in(piece)?;
            out.push(byte).ok()?;
            rest = behind;
        }
        out.extend_from_slice(rest.as_bytes()).ok()?;
    }
    Some(())
}

// Puts a part, with its number where it has a place for one.
fn put_numbered(out: &mut Vec<u8>, alloc: Global, part: &str, number: u32) -> Option<()> {
    let Some((front, behind)) = part.split_once('#') else {
        return put_plain(out, part);
    };
    put_plain(out, front)?;
    let number = format!(in alloc; "{number}").ok()?;
    out.extend_from_slice(number.as_bytes()).ok()?;
    put_plain(out, behind)
}

// Puts what stands between braces.
fn put_many(out: &mut Vec<u8>, alloc: Global, many: &str) -> Option<()> {
    let (times, part) = many.split_once(' ')?;
    for number in 0..times.parse::<u32>().ok()? {
        put_numbered(out, alloc, part, number)?;
    }
    Some(())
}

// The bytes that a part stands for. None: it stands for none, or there is no memory.
fn bytes_in(alloc: Global, part: &str) -> Option<Vec<u8>> {
    let mut bytes = Vec::new(alloc);
    for piece in part.split('{') {
        match piece.split_once('}') {
            Some((many, behind)) => {
                put_many(&mut bytes, alloc, many)?;
                put_plain(&mut bytes, behind)?;
            }
            None => put_plain(&mut bytes, piece)?,
        }
    }
    Some(bytes)
}

// A row with what it is shown as, where this is not what it wants.
fn difference<F: Fn(Global, &[u8]) -> Result<String, AllocError>>(
    alloc: Global,
    row: &str,
    shown: &F,
) -> Result<Option<String>, AllocError>
    requires { F.IsAlwaysCallable shown.now }
{
    let Some((tried, wanted)) = parts_in(row) else {
        return Ok(Some(format!(in alloc; "{row} has no two parts")?));
    };
    let (Some(tried), Some(wanted)) = (bytes_in(alloc, tried), bytes_in(alloc, wanted)) else {
        return Ok(Some(format!(in alloc; "{row} has a part that is no bytes")?));
    };
    let found = shown(alloc, tried.as_slice())?;
    if found.as_bytes() == wanted.as_slice() {
        return Ok(None);
    }
    Ok(Some(format!(in alloc; "{row} is shown as {found}")?))
}

/// The first row of a table whose bytes are shown otherwise, with how they are.
pub(crate) fn first_other_bytes<F: Fn(Global, &[u8]) -> Result<String, AllocError>>(
    alloc: Global,
    table: &str,
    shown: F,
) -> Result<Option<String>, AllocError>
    requires { F.IsAlwaysCallable shown }
{
    for row in table.lines() {
        if row.is_empty() {
            continue;
        }
        let other = difference(alloc, row, &shown)?;
        if other.is_some() {
            return Ok(other);
        }
    }
    Ok(None)
}

/// The first row of a table whose text is shown otherwise, with how it is.
pub(crate) fn first_other<F: Fn(Global, &str) -> Result<String, AllocError>>(
    alloc: Global,
    table: &str,
    shown: F,
) -> Result<Option<String>, AllocError>
    requires { F.IsAlwaysCallable shown }
{
    first_other_bytes(
        alloc,
        table,
        |alloc: Global, bytes: &[u8]| -> Result<String, AllocError> {
            match str::from_utf8(bytes) {
                Ok(text) => shown(alloc, text),
                Err(_) => String::from_str(alloc, "no text"),
            }
        },
    )
}
