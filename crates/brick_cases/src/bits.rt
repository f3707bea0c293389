//! Lists of bits beside plain lists of flags.

use cube_values::Bits;
use std::alloc::{AllocError, Global};
use std::process::Abort;

const LENGTHS: &str = "0 1 63 64 65 128 130";

// What is done to bits that there are: one of them, or those from a place up to another, are set or cleared.
const CHANGES: &str = "\
0 on
31 on
63 on
64 on
129 on
31 off
64 off
0..64 on
1..63 off
5..5 on
60..130 on
64..128 off
3..70 on
127..129 off";

// Whether the bits are the flags, one by one and in number.
fn agree(bits: &Bits, flags: &[bool]) -> bool {
    if bits.len() != flags.len() as u64 {
        return false;
    }
    for i in 0..flags.len() {
        if bits.get(i as u64) != flags[i] {
            return false;
        }
    }
    bits.ones() == flags.iter().filter(|flag| **flag).count() as u64
}

fn set(bits: &mut Bits, flags: &mut [bool], i: u64, on: bool) {
    if i < bits.len() && i < flags.len() as u64 {
        bits.set(i, on);
        flags[i as usize] = on;
    }
}

fn fill(bits: &mut Bits, flags: &mut [bool], from: u64, to: u64, on: bool) {
    if to <= bits.len() && to <= flags.len() as u64 && from <= to {
        bits.fill(from, to, on);
        flags[from as usize..to as usize].fill(on);
    }
}

fn change(bits: &mut Bits, flags: &mut [bool], places: &str, on: bool) -> Option<()> {
    match places.split_once("..") {
        Some((from, to)) => fill(
            bits,
            flags,
            from.parse::<u64>().ok()?,
            to.parse::<u64>().ok()?,
            on,
        ),
        None => set(bits, flags, places.parse::<u64>().ok()?, on),
    }
    Some(())
}

// Does what a row says, and tells whether bits and flags then agree.
fn agree_after(bits: &mut Bits, flags: &mut [bool], row: &str) -> bool {
    let Some((places, state)) = row.split_once(' ') else {
        return false;
    };
    change(bits, flags, places, state == "on").is_some() && agree(bits, flags)
}

// The first row behind which bits and flags do not agree.
fn wrong_row(bits: &mut Bits, flags: &mut [bool]) -> Option<&'static str> {
    for row in CHANGES.lines() {
        if !agree_after(bits, flags, row) {
            return Some(row);
        }
    }
    None
}

// What is wrong with a list of so many bits that is made and changed.
fn wrong_change(alloc: Global, len: u64) -> Result<Option<&'static str>, AllocError> {
    let mut bits = Bits::new(alloc, len)?;
    let mut flags = vec![in alloc; false; len as usize]?;
    if !agree(&bits, flags.as_slice()) {
        return Ok(Some("made"));
    }
    let wrong = wrong_row(&mut bits, flags.as_mut_slice());
    Ok(if bits.room() == len {
        wrong
    } else {
        Some("room")
    })
}

fn length_of(rt: &impl Abort, word: &str) -> u64 {
    word.parse::<u64>().ok().expect(rt, "a number")
}

#[test]
fn sets_and_fills(rt: HostRuntime) {
    for word in LENGTHS.split(' ') {
        let wrong = wrong_change(rt.alloc(), length_of(&rt, word));
        assert_eq!(rt; wrong, Ok(None), "{word} bits");
    }
}

// Whether all of so many bits are set when they start again, and none when they are cleared.
fn starts_again(bits: &mut Bits, flags: &mut Vec<bool>, kept: u64) -> Result<bool, AllocError> {
    flags.clear();
    flags.resize(kept as usize, true)?;
    if kept > bits.room() {
        return Ok(false);
    }
    bits.reset(kept);
    let are_set = agree(bits, flags.as_slice());
    flags.as_mut_slice().fill(false);
    bits.clear(kept);
    Ok(are_set && agree(bits, flags.as_slice()))
}

// Whether a list gets room for 70 bits more, and keeps it.
fn grows(bits: &mut Bits, flags: &[bool], len: u64) -> Result<bool, AllocError> {
    let more = len.saturating_add(70);
    bits.reserve(more)?;
    if !agree(bits, flags) || bits.room() != more {
        return Ok(false);
    }
    bits.reserve(len)?;
    Ok(bits.room() == more)
}

// Whether a list of so many bits grows, and then starts again with other numbers of bits.
fn grows_and_starts(alloc: Global, len: u64) -> Result<bool, AllocError> {
    let mut bits = Bits::new(alloc, len)?;
    let mut flags = vec![in alloc; true; len as usize]?;
    bits.reset(len);
    Ok(
        grows(&mut bits, flags.as_slice(), len)?
            && starts_again(&mut bits, &mut flags, len.saturating_add(70))?
            && starts_again(&mut bits, &mut flags, len)?
            && starts_again(&mut bits, &mut flags, len / 2)?
            && starts_again(&mut bits, &mut flags, len.saturating_add(3))?,
    )
}

#[test]
fn grows_and_starts_again(rt: HostRuntime) {
    for word in LENGTHS.split(' ') {
        let grown = grows_and_starts(rt.alloc(), length_of(&rt, word));
        assert_eq!(rt; grown, Ok(true), "{word} bits");
    }
}
