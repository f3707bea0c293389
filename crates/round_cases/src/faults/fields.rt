//! The fields of a payload.

use std::alloc::AllocError;

/// A field of a payload.
pub enum Field {
    /// A number of eight bytes.
    Number(u64),
    /// A byte.
    Byte(u8),
    /// A name behind its length, which is below 256.
    Name(&'static [u8]),
    /// A name of so many bytes `a`, behind its length.
    Long(u8),
    /// A run's kind, its epoch and its number of rows.
    Run(u64, u64),
    /// A mark's kind and its epoch.
    Mark(u64),
    /// A row of one coordinate and the metric 7.
    Row(u32),
}

fn put_eight(out: &mut Vec<u8>, n: u64) -> Result<(), AllocError> {
    out.extend_from_slice(&n.to_le_bytes())
}

fn put_long(out: &mut Vec<u8>, length: u8) -> Result<(), AllocError> {
    out.push(length)?;
    for _byte in 0..length {
        out.push(b'a')?;
    }
    Ok(())
}

fn put_name(out: &mut Vec<u8>, name: &[u8]) -> Result<(), AllocError> {
    out.push(u8::try_from(name.len()).unwrap_or(u8::MAX))?;
    out.extend_from_slice(name)
}

/// Puts a field at the end.
pub fn put(out: &mut Vec<u8>, field: &Field) -> Result<(), AllocError> {
    match field {
        Field::Number(n) => put_eight(out, *n),
        Field::Byte(byte) => {
            out.push(*byte)?;
            Ok(())
        }
        Field::Name(name) => put_name(out, name),
        Field::Long(length) => put_long(out, *length),
        Field::Run(epoch, rows) => {
            out.push(0)?;
            put_eight(out, *epoch)?;
            put_eight(out, *rows)
        }
        Field::Mark(epoch) => {
            out.push(1)?;
            put_eight(out, *epoch)
        }
        Field::Row(coord) => {
            out.extend_from_slice(&coord.to_le_bytes())?;
            put_eight(out, 7)
        }
    }
}
