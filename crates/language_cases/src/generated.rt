//! Files that were worked out apart, by tools/generator.

use crate::tables::first_other;
use cube_gen::{part, part_name, script};
use std::alloc::{AllocError, Global};

/// The FNV-1a checksum of 64 bits.
fn checksum(bytes: &[u8]) -> u64 {
    let mut sum = 14_695_981_039_346_656_037u64;
    for byte in bytes {
        sum = (sum ^ u64::from(*byte)).wrapping_mul(1_099_511_628_211);
    }
    sum
}

/// How many rows there are in all, and a session.
fn asked_in(text: &str) -> Option<(u64, u32)> {
    let (rows, session) = text.split_once(' ')?;
    Some((rows.parse::<u64>().ok()?, session.parse::<u32>().ok()?))
}

/// The part of a session.
fn part_shown(alloc: Global, text: &str) -> Result<String, AllocError> {
    match asked_in(text) {
        Some((rows, session)) => {
            String::from_utf8_lossy(alloc, part(alloc, rows, session)?.as_slice())
        }
        None => String::from_str(alloc, "no part"),
    }
}

/// The length of a session's part and its checksum.
fn sum_shown(alloc: Global, text: &str) -> Result<String, AllocError> {
    match asked_in(text) {
        Some((rows, session)) => {
            let bytes = part(alloc, rows, session)?;
            format!(in alloc; "{} {}", bytes.len(), checksum(bytes.as_slice()))
        }
        None => String::from_str(alloc, "no part"),
    }
}

const ONE_ROW: &str = r"
1 1|r6,286,44\n|
1 2||
1 3||
1 4||
";

#[test]
fn one_row(rt: HostRuntime) {
    assert_eq!(rt; first_other(rt.alloc(), ONE_ROW, part_shown), Ok(None));
}

const THOUSAND_ROWS: &str = r"
1000 1|2394 16494910505886425849|
1000 2|2412 9526471174237799875|
1000 3|2405 14442020725321560032|
1000 4|2385 4257641271038587240|
";

#[test]
fn a_thousand_rows(rt: HostRuntime) {
    assert_eq!(rt; first_other(rt.alloc(), THOUSAND_ROWS, sum_shown), Ok(None));
}

/// The name of the part that a session loads, or its script.
fn loaded_shown(alloc: Global, asked: &str) -> Result<String, AllocError> {
    match asked {
        "name 3" => String::from_str(alloc, part_name(alloc, 3)?.as_str()),
        _ => String::from_utf8_lossy(alloc, script(alloc, 4)?.as_slice()),
    }
}

const LOADED: &str = r"
name 3|part3.csv|
script 4|LOAD visits FROM 'part4.csv' REJECT 0;|
";

#[test]
fn what_is_loaded(rt: HostRuntime) {
    assert_eq!(rt; first_other(rt.alloc(), LOADED, loaded_shown), Ok(None));
}
