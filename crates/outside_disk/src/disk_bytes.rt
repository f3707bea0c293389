//! Plain work over the bytes of a disk in memory.

ghost use Rattle.std.specs.Prelude.{◌≡◌, ◌≤◌, ◌<◌, ◌-◌, ◌++◌, [], length, map, min, take, drop, vec_capacity, IfOk, OnOk};
ghost use Rattle.outside.specs.Files.{IsPiece};
ghost use Rattle.outside_disk.specs.Crash.{filled_from, crash_image};
ghost use Rattle.outside_disk.specs.DiskBytes.{settled_byte, read_bytes, with_byte, with_mark, marked_from};

use crate::events::DiskByte;
use std::alloc::{AllocError, Global};

/// Appends bytes, all of them settled, to none.
pub fn push_settled(bytes: &mut Vec<DiskByte>, first: &[u8])
    requires none { bytes.old.items ≡ [] }
    requires room { length first.now ≤ vec_capacity bytes.old }
    ensures items { bytes.new.items ≡ map settled_byte first.now }
    ensures capacity { vec_capacity bytes.new ≡ vec_capacity bytes.old }
{
    'first: for byte in first {
        bytes.push_reserved(DiskByte {
            byte: *byte,
            settled: true,
        });
    }
}

/// Puts a byte at a place, unsettled.
#[tactic(auto, using(crate::proofs::Bytes::set_is_with_byte, crate::proofs::Bytes::push_is_with_byte))]
pub fn put_byte(bytes: &mut Vec<DiskByte>, at: usize, byte: u8)
    requires within { at ≤ length bytes.old.items }
    requires room { length bytes.old.items < vec_capacity bytes.old }
    ensures items { bytes.new.items ≡ with_byte at byte bytes.old.items }
    ensures capacity { vec_capacity bytes.new ≡ vec_capacity bytes.old }
{
    let unsettled = DiskByte {
        byte,
        settled: false,
    };
    if at < bytes.len() {
        bytes[at] = unsettled;
    } else {
        bytes.push_reserved(unsettled);
    }
}

/// Marks all bytes as settled or not.
pub fn mark_all(bytes: &mut [DiskByte], settled: bool)
    ensures { bytes.new ≡ map (with_mark settled) bytes.old }
{
    let mut place = 0;
    'places: while place < bytes.len() {
        let byte = bytes[place].byte;
        bytes[place] = DiskByte { byte, settled };
        place += 1;
    }
}

/// Marks all bytes from a place on as settled or not.
pub fn mark_from(bytes: &mut Vec<DiskByte>, from: usize, settled: bool)
    requires { from ≤ length bytes.old.items }
    ensures items { bytes.new.items ≡ marked_from from settled bytes.old.items }
    ensures capacity { vec_capacity bytes.new ≡ vec_capacity bytes.old }
{
    mark_all(&mut bytes[from..], settled);
}

/// Copies bytes from a place on to the front of a piece, and answers how many.
pub fn copy_piece(bytes: &[DiskByte], at: u64, into: &mut [u8]) -> usize
    ensures most { result ≡ min (length into.new) (length bytes.now - at) }
    ensures piece { IsPiece (read_bytes bytes.now) at result into.new }
{
    if bytes.len() as u64 <= at {
        return 0;
    }
    let rest = &bytes[at as usize..];
    let most = rest.len().min(into.len());
    copy_bytes(&rest[..most], into);
    most
}

// Copies bytes to the front of a piece.
fn copy_bytes(bytes: &[DiskByte], into: &mut [u8])
    requires { length bytes.now ≤ length into.old }
    ensures { into.new ≡ read_bytes bytes.now ++ drop (length bytes.now) into.old }
{
    'bytes: for (place, byte) in bytes.iter().enumerate() {
        into[place] = byte.byte;
    }
}

/// The bytes, with those of a fill in the place of the unsettled ones, over and over.
pub fn filled(alloc: Global, bytes: &[DiskByte], fill: &[u8]) -> Result<Vec<u8>, AllocError>
    ensures { IfOk result (λ image. image.items ≡ crash_image fill.now bytes.now) }
{
    let mut image = Vec::with_capacity(alloc, bytes.len())?;
    if fill.is_empty() {
        push_read(&mut image, bytes)?;
    } else {
        push_filled(&mut image, bytes, fill)?;
    }
    Ok(image)
}

fn push_read(image: &mut Vec<u8>, bytes: &[DiskByte]) -> Result<(), AllocError>
    ensures { OnOk result (image.new.items ≡ image.old.items ++ read_bytes bytes.now) }
{
    'bytes: for byte in bytes {
        image.push(byte.byte)?;
    }
    Ok(())
}

fn push_filled(image: &mut Vec<u8>, bytes: &[DiskByte], fill: &[u8]) -> Result<(), AllocError>
    requires { 0 < length fill.now }
    ensures { OnOk result (image.new.items ≡
        image.old.items ++ filled_from fill.now 0 bytes.now) }
{
    let mut unsettled = 0;
    let mut left = bytes;
    'bytes: while let [byte, rest @ ..] = left {
        if byte.settled {
            image.push(byte.byte)?;
        } else {
            image.push(fill[unsettled % fill.len()])?;
            unsettled += 1;
        }
        left = rest;
    }
    Ok(())
}
