//! The workers of the shards, the flusher, and main, which closes the mails.
ghost use Rattle.std.specs.Prelude.{◌≡◌, ◌+◌, ◌<◌, ◌≤◌, ◌∷◌, ◌++◌, []};
ghost use Rattle.core_program.specs.ClientCalls.{close_entry};
ghost use Rattle.flush_loop.specs.FlushTurns.{LearnsOfFlushes};
ghost use Rattle.linked_shards.specs.CellShards.{CoreShardStands};
ghost use Rattle.shard_events.specs.ShardsInRuns.{FitsShard, ShardAnswerSays};
ghost use Rattle.shard_work.specs.Serving.{HasServedAll};
ghost use Rattle.small_core.specs.Openings.{AreCellsOfCore, BeginsAs};
ghost use Rattle.turn_board.specs.Passes.{callers_of};

use crate::cores::{SESSIONS, SHARDS};
use board_callers::CellCaller;
use core_program::{CoreSize, close_mail};
use flush_loop::{NoStore, RoundResult, flush_loop};
use linked_shards::ShardCells;
use opened_callers::an_opened_core_knows_its_callers;
use outside_disk::NoGate;
use shard_work::work;
use std::sync::Wait;
use turn_board::Board;

/// The worker of a shard does the jobs of its mail, until main closes that.
pub fn serve<R: Wait, P: CellCaller<ShardCells>>(
    rt: &R,
    board: &Board<ShardCells>,
    caller: &mut P,
    number: u32,
)
    requires board { P.calls_on board.now caller.old }
    requires callers { 7 ≤ callers_of board.now }
    requires there { number < 2 }
    requires begins { BeginsAs (4 + number) (P.opening caller.old) (P.number caller.old)
        (P.own caller.old) }
    ensures board { P.calls_on board.now caller.new }
    ensures served { HasServedAll (4 + number) number (4 + number) [] (P.own caller.new) }
{
    an_opened_core_knows_its_callers();
    let size = CoreSize::new(SHARDS, SESSIONS);
    work(rt, board, caller, &size, number, &NoGate);
}

/// The flusher answers each FLUSH by a round, without a store, until main closes its mail. It tells how its last
/// round ended, if it made one.
pub fn serve_flushes<R: Wait, P: CellCaller<ShardCells>>(
    rt: &R,
    board: &Board<ShardCells>,
    caller: &mut P,
) -> Option<RoundResult>
    requires board { P.calls_on board.now caller.old }
    requires callers { 7 ≤ callers_of board.now }
    requires begins { BeginsAs 6 (P.opening caller.old) (P.number caller.old) (P.own caller.old) }
    ensures board { P.calls_on board.now caller.new }
    ensures learns { LearnsOfFlushes FitsShard CoreShardStands ShardAnswerSays
        (P.opening caller.old) 6 4 2 result [] (P.own caller.new) }
{
    an_opened_core_knows_its_callers();
    let size = CoreSize::new(SHARDS, SESSIONS);
    flush_loop(rt, board, caller, &size, &mut NoStore)
}

// Main closes a mail.
fn close_one<R: Wait, P: CellCaller<ShardCells>>(
    rt: &R,
    board: &Board<ShardCells>,
    main: &mut P,
    number: u32,
)
    requires board { P.calls_on board.now main.old }
    requires callers { 7 ≤ callers_of board.now }
    requires there { number ≤ 2 }
    requires core { AreCellsOfCore 2 3 (P.opening main.old) }
    requires main { P.number main.old ≡ 0 }
    ensures board { P.calls_on board.now main.new }
    ensures core { AreCellsOfCore 2 3 (P.opening main.new) }
    ensures main { P.number main.new ≡ 0 }
    ensures own { P.own main.new ≡ P.own main.old ++ close_entry 0 (4 + number) ∷ [] }
{
    an_opened_core_knows_its_callers();
    let size = CoreSize::new(SHARDS, SESSIONS);
    close_mail(rt, board, main, &size, number);
}

/// Main closes the mails of the shards and of the flusher.
pub fn close_mails<R: Wait, P: CellCaller<ShardCells>>(
    rt: &R,
    board: &Board<ShardCells>,
    main: &mut P,
)
    requires board { P.calls_on board.now main.old }
    requires callers { 7 ≤ callers_of board.now }
    requires begins { BeginsAs 0 (P.opening main.old) (P.number main.old) (P.own main.old) }
    ensures board { P.calls_on board.now main.new }
    ensures own { P.own main.new ≡ close_entry 0 4 ∷ close_entry 0 5 ∷ close_entry 0 6 ∷ [] }
{
    close_one(rt, board, main, 0);
    close_one(rt, board, main, 1);
    close_one(rt, board, main, 2);
}
