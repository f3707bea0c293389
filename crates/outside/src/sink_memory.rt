//! A sink that keeps what it takes in memory, for tests and for what is said of whole runs.

ghost use Rattle.std.specs.Prelude.{◌≡◌, ◌≢◌, ◌↔◌, ◌⊎◌, ◌-◌, ◌≤◌, [], IfOk, length, min, vec_capacity, Some};
ghost use Rattle.outside.specs.Counts.{Rose, IsFailing};

use crate::answers::PutAnswer;
use crate::calls::Calls;
use crate::sink::Sink;
use std::alloc::{AllocError, Global};
use std::marker::Model;

/// Output in memory, with room for so many bytes. A call fails exactly where its number stands in
/// `failing` or is 2^64 - 1, or where its piece has bytes and none of them has room.
// A call that lacks room changes nothing: it takes no byte. It is a call all the same, so it has a
// number, and it is a counted fault.
#[derive(Debug, Drop)]
pub struct SinkMemory {
    bytes: Vec<u8>,
    room: usize,
    calls: Calls,
}

impl Model for SinkMemory {
    ghost use Rattle.std.specs.Prelude.{◌≤◌, length, vec_capacity};
    ghost use Rattle.outside.specs.Memory.{SinkState};

    ghost Value = { SinkState };

    ghost view = { λ sink. record {
      taken = sink.bytes.items;
      room = sink.room;
      failing = sink.calls.failing.items;
      calls = sink.calls.made;
      faults = sink.calls.faults;
    } };

    ghost invariant = { λ sink.
        (length sink.bytes.items ≤ sink.room) × (sink.room ≤ vec_capacity sink.bytes) };
}

impl SinkMemory {
    /// A sink with this much room, all of it taken from the allocator here, whose calls of these
    /// numbers fail.
    pub fn new(alloc: Global, room: u64, failing: Vec<u64>) -> Result<SinkMemory, AllocError>
        ensures { IfOk result (λ sink. sink ≡ record {
          taken = [];
          room = room;
          failing = failing.items;
          calls = 0;
          faults = 0;
        }) }
    {
        let room = room as usize;
        let bytes = Vec::with_capacity(alloc, room)?;
        Ok(SinkMemory {
            bytes,
            room,
            calls: Calls::new(failing),
        })
    }

    /// The bytes that were taken.
    pub fn taken(&self) -> &[u8]
        ensures { result.now ≡ self.now.taken }
    {
        self.bytes.as_slice()
    }
}

impl Sink for SinkMemory {
    ghost use Rattle.outside.specs.Output.{Gained, TakesSome, taken_by};
    ghost use Rattle.outside.specs.Memory.{LacksRoom, after_put};

    ghost taken = { λ sink. Some sink.taken };

    ghost fault_count = { λ sink. sink.faults };

    fn faults(&self) -> u64 {
        self.calls.faults
    }

    fn put(&mut self, bytes: &[u8]) -> PutAnswer
        ensures later { self.old.faults ≤ self.new.faults }
        ensures failed { result ≡ PutAnswer.Failed → Rose self.old.faults self.new.faults }
        ensures quiet { result ≢ PutAnswer.Failed → self.new.faults ≡ self.old.faults }
        ensures some { TakesSome result bytes.now }
        ensures gained { Gained (Some self.old.taken) (taken_by result bytes.now)
            (Some self.new.taken) }

        ensures exact { result ≡ PutAnswer.Failed ↔
            (IsFailing self.old.failing self.old.calls ⊎ LacksRoom self.old bytes.now) }
        ensures after { self.new ≡ after_put result bytes.now self.old }
        // As many bytes as the piece has and have room.
        ensures most { result ≢ PutAnswer.Failed →
            result ≡ PutAnswer.Took
            (min (length bytes.now) (self.old.room - length self.old.taken)) }
    {
        let left = self.room - self.bytes.len();
        let lacks_room = left == 0 && !bytes.is_empty();
        if self.calls.fails() || lacks_room {
            self.calls.count_fault();
            return PutAnswer::Failed;
        }
        self.calls.count();
        let most = bytes.len().min(left);
        self.bytes.extend_from_slice(&bytes[..most]).unwrap();
        PutAnswer::Took(most)
    }
}
