//! Lists of drawn calls on a shard, each answer against a walk over plain lists of what was done.

use crate::draws::{Draws, reader, some_box, some_question, some_rows, some_snapshot};
use crate::past::{Act, Deed, Past};
use crate::plain_copies::is_round;
use crate::two_cubes::TwoCubes;
use cube_values::CallError;
use shard_cell::ShardFull;
use std::alloc::{AllocError, Global};
use std::process::Abort;

/// How many lists of calls there are.
const LISTS: u32 = 2000;

/// How many calls a list has.
const CALLS: u64 = 32;

/// A shard, and what was done to it.
#[derive(Drop)]
struct Subject {
    shard: TwoCubes,
    past: Past,
    limit: u32,
}

/// Whether rows were refused exactly where they would have come to be above the limit.
fn is_right(answer: &Result<(), CallError<ShardFull>>, limit: u32, rows: u64, more: usize) -> bool {
    let fit = rows.saturating_add(more as u64) <= u64::from(limit);
    match answer {
        Ok(()) => fit,
        Err(CallError::Fault(full)) => !fit && full.rows == rows,
        Err(CallError::NoMemory) => false,
    }
}

impl Subject {
    /// A shard without rows. Of some lists the shard is soon full.
    fn new(alloc: Global, draws: &mut Draws) -> Result<Subject, AllocError> {
        let limit = if draws.below(4) == 0 {
            draws.below(40)
        } else {
            10_000
        };
        Ok(Subject {
            shard: TwoCubes::new(alloc, limit)?,
            past: Past::new(alloc),
            limit,
        })
    }

    /// Appends rows.
    fn append(
        &mut self,
        rt: &impl Abort,
        alloc: Global,
        draws: &mut Draws,
        call: u64,
    ) -> Result<bool, AllocError> {
        let cube = draws.below(2);
        let epoch = draws.write_epoch(self.past.purged);
        let rows = some_rows(alloc, draws, cube)?;
        let held = self.past.rows();
        let more = rows.len();
        let answer = self.shard.append(rt, alloc, cube, epoch, rows.as_slice());
        if answer.is_ok() {
            let act = Act::Append(rows);
            self.past.push(Deed {
                call,
                cube,
                epoch,
                act,
            })?;
        }
        Ok(is_right(&answer, self.limit, held, more))
    }

    /// Deletes a box.
    fn drop_box(
        &mut self,
        rt: &impl Abort,
        alloc: Global,
        draws: &mut Draws,
        call: u64,
    ) -> Result<bool, AllocError> {
        let cube = draws.below(2);
        let epoch = draws.write_epoch(self.past.purged);
        let span = some_box(alloc, draws, cube)?;
        self.shard.drop_box(rt, alloc, cube, epoch, &span)?;
        let act = Act::Delete(span);
        self.past.push(Deed {
            call,
            cube,
            epoch,
            act,
        })?;
        Ok(true)
    }

    /// Rolls an epoch back that no purge passed.
    fn rollback(&mut self, draws: &mut Draws) {
        let epoch = draws.write_epoch(self.past.purged);
        self.shard.rollback(epoch);
        self.past.rollback(epoch);
    }

    /// Purges at an epoch, up to which nothing writes or is read later.
    fn purge(&mut self, draws: &mut Draws) {
        let epoch = draws.purge_epoch(self.past.purged);
        self.shard.purge(epoch);
        self.past.purge(epoch);
    }

    /// Whether there are as many rows and bricks.
    fn has_counts(&self) -> bool {
        self.shard.rows() == self.past.rows() && self.shard.bricks() == self.past.bricks()
    }

    /// Whether a snapshot finds what it sees.
    fn scan(&self, rt: &impl Abort, alloc: Global, draws: &mut Draws) -> Result<bool, AllocError> {
        let snapshot = some_snapshot(draws, self.past.purged);
        assert!(rt; snapshot.admissible(self.past.purged));
        let asked = some_question(alloc, draws)?;
        let table = self.shard.scan(rt, alloc, &asked.query, &snapshot)?;
        let rows = self.past.rows_seen(alloc, &asked.query, &snapshot, None)?;
        asked.is_answer(alloc, &table, rows.as_slice())
    }

    /// Whether what came and went from one reader to another is what the one sees and the other does not.
    fn delta(&self, rt: &impl Abort, alloc: Global, draws: &mut Draws) -> Result<bool, AllocError> {
        let from = draws.read_epoch(self.past.purged);
        let to = draws.read_epoch(self.past.purged);
        let before = reader(from);
        let after = reader(to);
        let asked = some_question(alloc, draws)?;
        let tables = self.shard.delta(rt, alloc, &asked.query, from, to)?;
        let came = self
            .past
            .rows_seen(alloc, &asked.query, &after, Some(&before))?;
        let went = self
            .past
            .rows_seen(alloc, &asked.query, &before, Some(&after))?;
        let has_came = asked.is_answer(alloc, &tables.came, came.as_slice())?;
        let has_went = asked.is_answer(alloc, &tables.went, went.as_slice())?;
        Ok(has_came && has_went)
    }

    /// Whether a round has what was done in its epochs.
    fn copy(&self, alloc: Global, draws: &mut Draws) -> Result<bool, AllocError> {
        let from = draws.read_epoch(self.past.purged);
        let to = draws.read_epoch(self.past.purged);
        let round = self.shard.copy_round(from, to)?;
        is_round(alloc, &round, &self.past, from, to)
    }

    /// One drawn call. Whether its answer is that of the plain lists.
    fn call(
        &mut self,
        rt: &impl Abort,
        alloc: Global,
        draws: &mut Draws,
        call: u64,
    ) -> Result<bool, AllocError> {
        match draws.below(20) {
            0 | 1 | 2 | 3 | 4 | 5 | 6 | 7 => self.append(rt, alloc, draws, call),
            8 | 9 => self.drop_box(rt, alloc, draws, call),
            10 => {
                self.rollback(draws);
                Ok(true)
            }
            11 => {
                self.purge(draws);
                Ok(true)
            }
            12 | 13 | 14 | 15 => self.scan(rt, alloc, draws),
            16 | 17 => self.delta(rt, alloc, draws),
            _ => self.copy(alloc, draws),
        }
    }
}

#[test]
fn drawn_calls_answer_what_plain_lists_say(rt: HostRuntime) {
    let alloc = rt.alloc();
    let mut draws = Draws { state: 11 };
    for list in 0..LISTS {
        let mut subject = Subject::new(alloc, &mut draws).expect(&rt, "memory");
        for call in 0..CALLS {
            let same = subject
                .call(&rt, alloc, &mut draws, call)
                .expect(&rt, "memory");
            assert!(rt; same && subject.has_counts(), "list {list}, call {call}");
        }
    }
}
