//! The steps of a session, one after the other, by what it holds.
ghost use Rattle.std.specs.Prelude.{◌≡◌, ◌+◌, ◌≤◌, IfSome};
ghost use Rattle.core_steps.specs.Holding.{HoldsAs};
ghost use Rattle.core_steps.specs.OnCore.{IsOnCore};
ghost use Rattle.core_steps.specs.StepAnswers.{MayAnswer, held_after};
ghost use Rattle.core_steps.specs.declared.plays.HeldSnapshot.TheVariants.{Nothing, Writer};
ghost use Rattle.core_steps.specs.declared.plays.Step.TheVariants.{Begin};
ghost use Rattle.core_steps.specs.declared.plays.StepAnswer.TheVariants.{Found};
ghost use Rattle.session_snapshots.specs.KnownHolds.{HoldsNothing, HoldsWriter};
ghost use Rattle.linked_shards.specs.CellShards.{CoreShardStands};
ghost use Rattle.shard_events.specs.ShardsInRuns.{FitsShard, ShardAnswerSays};
ghost use Rattle.turn_board.specs.Passes.{callers_of};

use crate::queries::{TotalsRead, read_totals, totals_of_writer};
use crate::requests::{ask_round, purge_up_to_safe};
use crate::totals::Totals;
use crate::traced::TracedCaller;
use crate::transactions::{begin, commit_writer, roll_back};
use crate::writes::{delete_between, delete_rows, put_row, write_row};
use core_program::CoreSize;
use cube_core::FlushAnswer;
use cube_values::Snapshot;
use linked_shards::ShardCells;
use std::alloc::Global;
use std::sync::Wait;
use turn_board::Board;

/// What a session holds between two steps.
#[derive(Drop)]
pub enum HeldSnapshot {
    Nothing,
    Writer(Snapshot),
}

/// A step of a session, on a cube of one dimension and one metric. One that a transaction allows and a
/// session without one does not, or the other way round, changes nothing.
#[derive(Clone, Copy)]
pub enum Step {
    /// Begins a transaction.
    Begin,
    /// Puts a row, in the transaction or in one of its own.
    Put { coord: u32, metric: i64 },
    /// Deletes the rows between two coordinates, in the transaction or in one of its own.
    Delete { low: u32, high: u32 },
    /// Asks for the totals of the rows between two coordinates that the transaction sees, or else a reader.
    Query { low: u32, high: u32 },
    /// Commits the transaction.
    Commit,
    /// Rolls the transaction back.
    RollBack,
    /// Has each shard purge up to LSE, outside of a transaction.
    Purge,
    /// Asks for a round, outside of a transaction.
    Flush,
}

/// What became of a step.
#[derive(Drop)]
pub enum StepAnswer {
    /// It is none, as things stand.
    NoStep,
    /// The transaction has begun.
    Begun(Snapshot),
    /// The transaction has written.
    Written,
    /// A transaction of its own has written at its epoch.
    Stored { epoch: u64 },
    /// These were seen by the snapshot of the transaction or of a reader, whose epoch this is.
    Found { epoch: u64, totals: Totals },
    /// The transaction of an epoch has committed.
    Committed { epoch: u64 },
    /// The transaction of an epoch was rolled back.
    RolledBack { epoch: u64 },
    /// Each shard has purged up to the epoch.
    Purged { epoch: u64 },
    /// A round ended so.
    Flushed(FlushAnswer),
}

/// A step that was played: what the session then holds, and what became of the step.
#[derive(Drop)]
pub struct Played {
    pub held: HeldSnapshot,
    pub answer: StepAnswer,
}

// After the step the session has no transaction.
fn without(answer: StepAnswer) -> Played
    ensures { result ≡ record { held = Nothing; answer = answer } }
{
    Played {
        held: HeldSnapshot::Nothing,
        answer,
    }
}

// After the step it has this one.
fn within(writer: Snapshot, answer: StepAnswer) -> Played
    ensures { result ≡ record { held = Writer writer; answer = answer } }
{
    Played {
        held: HeldSnapshot::Writer(writer),
        answer,
    }
}

// What a reader saw.
fn found(read: TotalsRead) -> StepAnswer
    ensures { result ≡ Found read.epoch read.totals }
{
    StepAnswer::Found {
        epoch: read.epoch,
        totals: read.totals,
    }
}

// A step of a session without a transaction.
fn play_without<R: Wait, P: TracedCaller>(
    rt: &R,
    board: &Board<ShardCells>,
    caller: &mut P,
    size: &CoreSize,
    session: u32,
    name: &str,
    step: Step,
    alloc: Global,
) -> Option<Played>
    requires board { P.calls_on board.now caller.old }
    requires callers { size.now.sessions + 2 + size.now.shards ≤ callers_of board.now }
    requires some { 1 ≤ size.now.shards }
    requires on_core { IsOnCore size.now.shards (P.opening caller.old) (P.number caller.old)
        session }
    requires holds { HoldsNothing FitsShard CoreShardStands ShardAnswerSays (P.opening caller.old)
        (P.number caller.old) session (P.own caller.old) }
    ensures board { P.calls_on board.now caller.new }
    ensures on_core { IsOnCore size.now.shards (P.opening caller.new) (P.number caller.new)
        session }
    ensures holds { IfSome result (λ p. HoldsAs (P.opening caller.new) (P.number caller.new) session
        (P.own caller.new) p.held) }
    ensures answers { IfSome result (λ p. MayAnswer Nothing step p.answer) }
    ensures after { IfSome result (λ p. p.held ≡ held_after Nothing p.answer) }
{
    match step {
        Step::Begin => play_begin(rt, board, caller, size, session),
        Step::Put { coord, metric } => {
            let epoch = write_row(rt, board, caller, size, session, name, coord, metric, alloc)?;
            Some(without(StepAnswer::Stored { epoch }))
        }
        Step::Delete { low, high } => {
            let epoch = delete_rows(rt, board, caller, size, session, name, low, high, alloc)?;
            Some(without(StepAnswer::Stored { epoch }))
        }
        Step::Query { low, high } => {
            let read = read_totals(rt, board, caller, size, session, name, low, high, alloc)?;
            Some(without(found(read)))
        }
        Step::Purge => {
            let epoch = purge_up_to_safe(rt, board, caller, size, session, alloc)?;
            Some(without(StepAnswer::Purged { epoch }))
        }
        Step::Flush => {
            let end = ask_round(rt, board, caller, size, session);
            Some(without(StepAnswer::Flushed(end)))
        }
        Step::Commit | Step::RollBack => Some(without(StepAnswer::NoStep)),
    }
}

// A session without a transaction begins one.
fn play_begin<R: Wait, P: TracedCaller>(
    rt: &R,
    board: &Board<ShardCells>,
    caller: &mut P,
    size: &CoreSize,
    session: u32,
) -> Option<Played>
    requires board { P.calls_on board.now caller.old }
    requires on_core { IsOnCore size.now.shards (P.opening caller.old) (P.number caller.old)
        session }
    requires holds { HoldsNothing FitsShard CoreShardStands ShardAnswerSays (P.opening caller.old)
        (P.number caller.old) session (P.own caller.old) }
    ensures board { P.calls_on board.now caller.new }
    ensures on_core { IsOnCore size.now.shards (P.opening caller.new) (P.number caller.new)
        session }
    ensures holds { IfSome result (λ p. HoldsAs (P.opening caller.new) (P.number caller.new) session
        (P.own caller.new) p.held) }
    ensures answers { IfSome result (λ p. MayAnswer Nothing Begin p.answer) }
    ensures after { IfSome result (λ p. p.held ≡ held_after Nothing p.answer) }
{
    let writer = begin(rt, board, caller, size, session)?;
    let shown = writer.copy();
    Some(within(writer, StepAnswer::Begun(shown)))
}

// A step of a session within its transaction.
fn play_within<R: Wait, P: TracedCaller>(
    rt: &R,
    board: &Board<ShardCells>,
    caller: &mut P,
    size: &CoreSize,
    session: u32,
    name: &str,
    writer: Snapshot,
    step: Step,
    alloc: Global,
) -> Option<Played>
    requires board { P.calls_on board.now caller.old }
    requires callers { size.now.sessions + 2 + size.now.shards ≤ callers_of board.now }
    requires some { 1 ≤ size.now.shards }
    requires on_core { IsOnCore size.now.shards (P.opening caller.old) (P.number caller.old)
        session }
    requires holds { HoldsWriter FitsShard CoreShardStands ShardAnswerSays (P.opening caller.old)
        (P.number caller.old) session (P.own caller.old) writer }
    ensures board { P.calls_on board.now caller.new }
    ensures on_core { IsOnCore size.now.shards (P.opening caller.new) (P.number caller.new)
        session }
    ensures holds { IfSome result (λ p. HoldsAs (P.opening caller.new) (P.number caller.new) session
        (P.own caller.new) p.held) }
    ensures answers { IfSome result (λ p. MayAnswer (Writer writer) step p.answer) }
    ensures after { IfSome result (λ p. p.held ≡ held_after (Writer writer) p.answer) }
{
    match step {
        Step::Put { coord, metric } => {
            put_row(
                rt, board, caller, size, session, name, coord, metric, &writer, alloc,
            )?;
            Some(within(writer, StepAnswer::Written))
        }
        Step::Delete { low, high } => {
            delete_between(
                rt, board, caller, size, session, name, low, high, &writer, alloc,
            )?;
            Some(within(writer, StepAnswer::Written))
        }
        Step::Query { low, high } => {
            let totals = totals_of_writer(
                rt, board, caller, size, session, name, low, high, &writer, alloc,
            )?;
            let epoch = writer.epoch;
            Some(within(writer, StepAnswer::Found { epoch, totals }))
        }
        Step::Commit => {
            let epoch = commit_writer(rt, board, caller, size, session, writer);
            Some(without(StepAnswer::Committed { epoch }))
        }
        Step::RollBack => {
            let epoch = roll_back(rt, board, caller, size, session, writer, alloc)?;
            Some(without(StepAnswer::RolledBack { epoch }))
        }
        Step::Begin | Step::Purge | Step::Flush => Some(within(writer, StepAnswer::NoStep)),
    }
}

/// Plays a step of a session. None: the core has no such cube, a shard refused what was asked, or memory ran
/// out.
pub(crate) fn play<R: Wait, P: TracedCaller>(
    rt: &R,
    board: &Board<ShardCells>,
    caller: &mut P,
    size: &CoreSize,
    session: u32,
    name: &str,
    held: HeldSnapshot,
    step: Step,
    alloc: Global,
) -> Option<Played>
    requires board { P.calls_on board.now caller.old }
    requires callers { size.now.sessions + 2 + size.now.shards ≤ callers_of board.now }
    requires some { 1 ≤ size.now.shards }
    requires on_core { IsOnCore size.now.shards (P.opening caller.old) (P.number caller.old)
        session }
    requires holds { HoldsAs (P.opening caller.old) (P.number caller.old) session
        (P.own caller.old) held }
    ensures board { P.calls_on board.now caller.new }
    ensures on_core { IsOnCore size.now.shards (P.opening caller.new) (P.number caller.new)
        session }
    ensures holds { IfSome result (λ p. HoldsAs (P.opening caller.new) (P.number caller.new) session
        (P.own caller.new) p.held) }
    ensures answers { IfSome result (λ p. MayAnswer held step p.answer) }
    ensures after { IfSome result (λ p. p.held ≡ held_after held p.answer) }
{
    match held {
        HeldSnapshot::Nothing => {
            play_without(rt, board, caller, size, session, name, step, alloc)
        }
        HeldSnapshot::Writer(writer) => {
            play_within(rt, board, caller, size, session, name, writer, step, alloc)
        }
    }
}
