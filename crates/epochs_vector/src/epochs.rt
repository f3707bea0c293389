//! A vector of epochs that is whole after every call.

ghost use Rattle.std.specs.Prelude.{◌≡◌, ◌+◌, ◌^◌, ◌<◌, ◌≤◌, true, false, [], length, replicate, vec_capacity, OnOk, OnErr, IsOk, IfOk};
ghost use Rattle.cube_values.specs.BitRows.{set_bits};
ghost use Rattle.cube_values.specs.EpochsVector.{IsVector, rows_of, vector_with_entry};
ghost use Rattle.cube_values.specs.declared.entry.Entry.TheVariants.{Run, Mark};
ghost use Rattle.cube_values.specs.Rooms.{grown_room};
ghost use Rattle.epochs_vector.specs.Entries.{room_of};
ghost use Rattle.epochs_vector.specs.Seen.{seen_rows};
ghost use Rattle.epochs_vector.specs.Changed.{LeavesVector};
ghost use Rattle.epochs_vector.specs.Without.{staying_bits, entries_without};

use crate::entry_list::put_last;
use crate::limit::limit_of;
use crate::shown::show_rows;
use crate::without::take_out;
use cube_values::{Bits, Entry, Snapshot, grown_room};
use std::alloc::{AllocError, Global};
use std::marker::Model;

/// The entries of a brick in order: a run for rows that one epoch appended in a row, and a mark for a
/// deletion. No run is empty, and no two neighbours are runs of one epoch or equal marks.
#[derive(Debug, Drop)]
pub struct Epochs {
    entries: Vec<Entry>,
    rows: u64,
}

impl Model for Epochs {
    ghost use Rattle.std.specs.Prelude.{◌-◌, vec_len, vec_capacity};
    ghost use Rattle.cube_values.specs.EpochsVector.{IsVector};
    ghost use Rattle.epochs_vector.specs.Entries.{Vector};

    ghost Value = { Vector };

    ghost view = { λ e. record {
      entries = e.entries.items;
      spare = vec_capacity e.entries - vec_len e.entries;
    } };

    ghost invariant = { λ e. IsVector e.entries.items e.rows };
}

impl Epochs {
    /// A vector without entries.
    pub fn new(alloc: Global) -> Epochs
        ensures { result.entries ≡ [] }
    {
        Epochs {
            entries: Vec::new(alloc),
            rows: 0,
        }
    }

    /// Makes room for `n` more entries at least. Where memory is wanted nothing changes; where there is
    /// room already, none is. Room that grows becomes twice as large.
    pub fn reserve(&mut self, n: u64) -> Result<(), AllocError>
        ensures entries { self.new.entries ≡ self.old.entries }
        ensures enough { OnOk result (n ≤ self.new.spare) }
        ensures room { OnOk result (room_of self.new
            ≡ grown_room (room_of self.old) (length self.old.entries + n)) }
        ensures same { OnErr result (self.new ≡ self.old) }
        ensures there { n ≤ self.old.spare → IsOk result }
    {
        let len = self.entries.len() as u64;
        let least = len.checked_add(n).ok_or(AllocError)?;
        let room = grown_room(self.entries.capacity() as u64, least);
        self.entries.reserve_exact((room - len) as usize)
    }

    /// Says that `epoch` appended the next `n` rows. It takes no memory, and no spare place where the last
    /// entry is a run of the epoch.
    pub fn append_rows(&mut self, epoch: u64, n: u64)
        requires some { 1 ≤ n }
        requires room { 1 ≤ self.old.spare }
        requires fit { rows_of self.old.entries + n < 2 ^ 64 }
        ensures entries { self.new.entries
            ≡ vector_with_entry self.old.entries (Run epoch (rows_of self.old.entries + n)) }
        ensures room { room_of self.new ≡ room_of self.old }
        ensures spare { self.old.spare ≤ self.new.spare + 1 }
    {
        self.rows += n;
        put_last(
            &mut self.entries,
            Entry::Run {
                epoch,
                end: self.rows,
            },
        );
    }

    /// Says that `epoch` deleted here. A mark equal to the last entry adds nothing and takes no spare place.
    /// It takes no memory.
    pub fn mark(&mut self, epoch: u64)
        requires { 1 ≤ self.old.spare }
        ensures entries { self.new.entries
            ≡ vector_with_entry self.old.entries (Mark epoch (rows_of self.old.entries)) }
        ensures room { room_of self.new ≡ room_of self.old }
        ensures spare { self.old.spare ≤ self.new.spare + 1 }
    {
        put_last(
            &mut self.entries,
            Entry::Mark {
                epoch,
                at: self.rows,
            },
        );
    }

    /// The entries in order. They are a vector over the rows that they lead to.
    pub fn entries(&self) -> &[Entry]
        ensures items { result.now ≡ self.now.entries }
        ensures vector { IsVector self.now.entries (rows_of self.now.entries) }
    {
        self.entries.as_slice()
    }

    /// How many rows there are.
    pub fn rows(&self) -> u64
        ensures { result ≡ rows_of self.now.entries }
    {
        self.rows
    }

    /// A bit for each row, set where the snapshot sees the row. It is an error where memory is wanted.
    pub fn visible_bits(&self, snapshot: &Snapshot) -> Result<Bits, AllocError>
        ensures bits { IfOk result (λ bits. bits.bits ≡ seen_rows snapshot.now self.now.entries) }
        ensures room { IfOk result (λ bits. bits.room ≡ rows_of self.now.entries) }
    {
        let mut bits = Bits::new(*self.entries.allocator(), self.rows)?;
        self.set_visible(snapshot, &mut bits);
        Ok(bits)
    }

    /// Of bits that are all clear, one for each row, sets those of the rows that the snapshot sees: where it
    /// sees the row's epoch, and no mark that hides the row. The work is linear in entries and words of
    /// bits, and it takes no memory.
    pub fn set_visible(&self, snapshot: &Snapshot, bits: &mut Bits)
        requires { bits.old.bits ≡ replicate (rows_of self.now.entries) false }
        ensures bits { bits.new.bits ≡ seen_rows snapshot.now self.now.entries }
        ensures room { bits.new.room ≡ bits.old.room }
    {
        let limit = limit_of(self.entries.as_slice(), snapshot);
        show_rows(bits, self.entries.as_slice(), snapshot, &limit);
    }

    /// Takes the runs and marks of the epoch out, and with them its rows. `keep` has one bit for each row,
    /// all set, and is left set where the row stays. It takes no memory.
    pub fn remove_epoch(&mut self, epoch: u64, keep: &mut Bits)
        requires { keep.old.bits ≡ replicate (rows_of self.old.entries) true }
        ensures entries { self.new.entries ≡ entries_without epoch self.old.entries }
        ensures rows { rows_of self.new.entries ≡ set_bits keep.new.bits }
        ensures keep { keep.new.bits ≡ staying_bits epoch self.old.entries }
        ensures room { keep.new.room ≡ keep.old.room }
        ensures spare { self.old.spare ≤ self.new.spare }
    {
        let left = take_out(self.entries.as_mut_slice(), epoch, keep);
        self.entries.truncate(left.entries);
        self.rows = left.rows;
    }

    /// Lets a function change the entries and, with them, which bits of `keep` are set. `keep` has one
    /// bit for each row, all set, and the function leaves a vector over as many rows as bits stay set,
    /// of no more entries, in memory that is no less.
    pub fn with_entries<F: FnOnce(&mut Vec<Entry>, &mut Bits)>(
        &mut self,
        keep: &mut Bits,
        change: F,
    )
        requires all { keep.old.bits ≡ replicate (rows_of self.old.entries) true }
        requires call { (entries : _) (bits : _)
            → entries.now.items ≡ self.old.entries
            → bits.now ≡ keep.old
            → F.pre change entries bits }
        requires sound { (entries : _) (bits : _) (after : _) (left : _)
            → F.post change entries bits tt after left
            → entries.now.items ≡ self.old.entries
            → bits.now ≡ keep.old
            → LeavesVector after.now.items left.now.bits (length self.old.entries)
            (vec_capacity entries.now) (vec_capacity after.now) }
        ensures change { (entries : _) × (bits : _) × (after : _) × (left : _)
            × F.post change entries bits tt after left
            × (entries.now.items ≡ self.old.entries)
            × (bits.now ≡ keep.old)
            × (after.now.items ≡ self.new.entries)
            × (left.now ≡ keep.new) }
        ensures rows { rows_of self.new.entries ≡ set_bits keep.new.bits }
        ensures spare { self.old.spare ≤ self.new.spare }
    {
        change(&mut self.entries, keep);
        self.rows = keep.ones();
    }
}
