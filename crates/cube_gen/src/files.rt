//! The files of the sessions.

ghost use Rattle.std.specs.Prelude.{◌≡◌, ◌++◌, IfOk, OnOk};
ghost use Rattle.cube_gen.specs.Generated.{high_bits, falls_to_session, line_for, row_line, next_number, part_text};

use cube_language::put_u64;
use std::alloc::{AllocError, Global};

fn next_number(x: u64) -> u64
    ensures { result ≡ next_number x }
{
    x.wrapping_mul(6_364_136_223_846_793_005)
        .wrapping_add(1_442_695_040_888_963_407)
}

fn high_bits(x: u64) -> u64
    ensures { result ≡ high_bits x }
{
    x >> 33
}

fn falls_to_session(session: u32, k: u64) -> bool
    ensures { result ≡ falls_to_session session k }
{
    k % 4 + 1 == u64::from(session)
}

fn put_line(out: &mut Vec<u8>, bits: u64) -> Result<(), AllocError>
    ensures { OnOk result (out.new.items ≡ out.old.items ++ row_line bits) }
{
    out.push(b'r')?;
    put_u64(out, bits % 8)?;
    out.push(b',')?;
    put_u64(out, bits / 8 % 365)?;
    out.push(b',')?;
    put_u64(out, bits / 2920 % 100)?;
    out.push(b'\n')?;
    Ok(())
}

fn put_row(out: &mut Vec<u8>, session: u32, k: u64, bits: u64) -> Result<(), AllocError>
    ensures { OnOk result (out.new.items ≡ out.old.items ++ line_for session k bits) }
{
    if falls_to_session(session, k) {
        put_line(out, bits)
    } else {
        Ok(())
    }
}

/// The file of a session, of n rows for all sessions together. The time and the memory taken are linear in n.
pub fn part(alloc: Global, n: u64, session: u32) -> Result<Vec<u8>, AllocError>
    ensures { IfOk result (λ text. text.items ≡ part_text n session) }
{
    let mut out = Vec::new(alloc);
    let mut x = n;
    'rows: for k in 0..n {
        x = next_number(x);
        put_row(&mut out, session, k, high_bits(x))?;
    }
    Ok(out)
}
