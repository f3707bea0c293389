//! The bytes of a disk in memory with the record of its events.

ghost use Rattle.std.specs.Prelude.{◌≡◌, ◌≤◌, ◌<◌, ◌-◌, ◌+◌, ◌∷◌, [], length, min, IfOk};
ghost use Rattle.outside.specs.Files.{IsPiece};
ghost use Rattle.outside_disk.specs.Course.{write_events};
ghost use Rattle.outside_disk.specs.Crash.{crash_image};
ghost use Rattle.outside_disk.specs.DiskBytes.{read_bytes};
ghost use Rattle.outside_disk.specs.Memory.{tape_course, with_events};
ghost use Rattle.outside_disk.specs.declared.events.DiskEvent.TheVariants.{Nothing, Sync, Cut, FailedCut, Write, Byte};

use crate::disk_bytes::{copy_piece, filled, mark_from, push_settled, put_byte};
use crate::events::{DiskByte, DiskEvent};
use std::alloc::{AllocError, Global};
use std::marker::Model;

/// A file in memory that keeps what happened to it, with room for so many events.
#[derive(Debug, Drop)]
pub struct Tape {
    first: Vec<u8>,
    bytes: Vec<DiskByte>,
    events: Vec<DiskEvent>,
    room: usize,
}

impl Model for Tape {
    ghost use Rattle.std.specs.Prelude.{◌≡◌, ◌≤◌, ◌+◌, length, vec_capacity};
    ghost use Rattle.outside_disk.specs.Course.{course_of};
    ghost use Rattle.outside_disk.specs.Memory.{TapeState};

    ghost Value = { TapeState };

    ghost view = { λ tape. record {
      first = tape.first.items;
      events = tape.events.items;
      room = tape.room;
    } };

    ghost invariant = { λ tape.
        ((course_of tape.first.items tape.events.items).now ≡ tape.bytes.items)
        × (length tape.bytes.items + tape.room ≤ vec_capacity tape.bytes)
        × (length tape.events.items + tape.room ≤ vec_capacity tape.events) };
}

impl Tape {
    /// A file with these bytes, all of them settled. All memory that its calls want is taken here.
    pub fn new(alloc: Global, first: Vec<u8>, room: usize) -> Result<Tape, AllocError>
        ensures { IfOk result (λ tape.
            tape ≡ record { first = first.items; events = []; room = room }) }
    {
        let Some(most) = first.len().checked_add(room) else {
            return Err(AllocError);
        };
        let mut bytes = Vec::with_capacity(alloc, most)?;
        push_settled(&mut bytes, first.as_slice());
        let events = Vec::with_capacity(alloc, room)?;
        Ok(Tape {
            first,
            bytes,
            events,
            room,
        })
    }

    /// How many events have room.
    pub fn room(&self) -> usize
        ensures { result ≡ self.now.room }
    {
        self.room
    }

    /// How many bytes there are.
    pub fn len(&self) -> usize
        ensures { result ≡ length (tape_course self.now).now }
    {
        self.bytes.len()
    }

    /// Copies bytes from a place on to the front of a piece, and answers how many.
    pub fn read(&self, at: u64, into: &mut [u8]) -> usize
        ensures most { result ≡ min (length into.new) (length (tape_course self.now).now - at) }
        ensures piece { IsPiece (read_bytes (tape_course self.now).now) at result into.new }
    {
        copy_piece(self.bytes.as_slice(), at, into)
    }

    /// Notes a call that changed nothing.
    pub fn note(&mut self)
        requires { 0 < self.old.room }
        ensures { self.new ≡ with_events (Nothing ∷ []) self.old }
    {
        self.events.push_reserved(DiskEvent::Nothing);
        self.room -= 1;
    }

    /// Settles all bytes.
    pub fn settle(&mut self)
        requires { 0 < self.old.room }
        ensures { self.new ≡ with_events (Sync ∷ []) self.old }
    {
        mark_from(&mut self.bytes, 0, true);
        self.events.push_reserved(DiskEvent::Sync);
        self.room -= 1;
    }

    /// Cuts to a length.
    pub fn cut(&mut self, len: u64)
        requires room { 0 < self.old.room }
        requires within { len ≤ length (tape_course self.old).now }
        ensures { self.new ≡ with_events (Cut len ∷ []) self.old }
    {
        self.bytes.truncate(len as usize);
        self.events.push_reserved(DiskEvent::Cut { len });
        self.room -= 1;
    }

    /// Unsettles all bytes from a place on.
    pub fn unsettle(&mut self, len: u64)
        requires room { 0 < self.old.room }
        requires within { len ≤ length (tape_course self.old).now }
        ensures { self.new ≡ with_events (FailedCut len ∷ []) self.old }
    {
        mark_from(&mut self.bytes, len as usize, false);
        self.events.push_reserved(DiskEvent::FailedCut { len });
        self.room -= 1;
    }

    /// Writes bytes from a place on, unsettled.
    pub fn write(&mut self, at: u64, bytes: &[u8])
        requires room { length bytes.now < self.old.room }
        requires within { at ≤ length (tape_course self.old).now }
        ensures { self.new ≡ with_events (write_events at bytes.now) self.old }
    {
        self.begin_write();
        let mut place = at;
        let mut left = bytes;
        'bytes: while let [byte, rest @ ..] = left {
            place = self.put(place, *byte);
            left = rest;
        }
    }

    // Notes that a write begins.
    fn begin_write(&mut self)
        requires { 0 < self.old.room }
        ensures event { self.new ≡ with_events (Write ∷ []) self.old }
        ensures same { (tape_course self.new).now ≡ (tape_course self.old).now }
    {
        self.events.push_reserved(DiskEvent::Write);
        self.room -= 1;
    }

    // Puts a byte of a write at a place, and answers the place behind it.
    fn put(&mut self, at: u64, byte: u8) -> u64
        requires room { 0 < self.old.room }
        requires within { at ≤ length (tape_course self.old).now }
        ensures event { self.new ≡ with_events (Byte at byte ∷ []) self.old }
        ensures next { result ≡ at + 1 }
        ensures within { at + 1 ≤ length (tape_course self.new).now }
    {
        put_byte(&mut self.bytes, at as usize, byte);
        self.events.push_reserved(DiskEvent::Byte { at, byte });
        self.room -= 1;
        at + 1
    }

    /// What a crash leaves where the i-th unsettled byte is that of `fill`, over and over; where
    /// `fill` is empty, what a read gives.
    pub fn crash(&self, alloc: Global, fill: &[u8]) -> Result<Vec<u8>, AllocError>
        ensures { IfOk result (λ image.
            image.items ≡ crash_image fill.now (tape_course self.now).now) }
    {
        filled(alloc, self.bytes.as_slice(), fill)
    }
}
