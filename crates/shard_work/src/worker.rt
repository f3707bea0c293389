//! The worker's loop.
ghost use Rattle.std.specs.Prelude.{◌≡◌, ◌+◌, ◌<◌, ◌≤◌};
ghost use Rattle.std.specs.Bool.{OnFalse, OnTrue};
ghost use Rattle.core_program.specs.Workers.{IsWorkerOf, NoneInHand, in_hand};
ghost use Rattle.shard_work.specs.Serving.{HasServedAll, HasServedWaiting};
ghost use Rattle.turn_board.specs.Passes.{callers_of};

use crate::jobs::{do_job, take_job};
use board_callers::CellCaller;
use core_program::{CoreCells, CoreSize};
use cube_core::LinkedShard;
use mail_cell::Taken;
use outside_disk::Gate;
use std::sync::Wait;
use turn_board::Board;

/// Does the jobs of a shard's mail, one after the other and each once, until the mail is closed and has
/// none. Where there is no job it rests at its bell. The caller is the worker of the shard and has
/// replied to each job that it took.
pub fn work<S: LinkedShard, R: Wait, P: CellCaller<CoreCells<S>>, G: Gate>(
    rt: &R,
    board: &Board<CoreCells<S>>,
    caller: &mut P,
    size: &CoreSize,
    number: u32,
    gate: &G,
)
    requires board { P.calls_on board.now caller.old }
    requires callers { size.now.sessions + 2 + size.now.shards ≤ callers_of board.now }
    requires there { number < size.now.shards }
    requires worker { IsWorkerOf S.fits S.stands S.says (P.opening caller.old) (P.number caller.old)
        number (2 + size.now.shards + number) }
    requires idle { in_hand (P.own caller.old) ≡ NoneInHand }
    ensures board { P.calls_on board.now caller.new }
    ensures opening { P.opening caller.new ≡ P.opening caller.old }
    ensures number { P.number caller.new ≡ P.number caller.old }
    ensures others { P.others caller.new ≡ P.others caller.old }
    ensures served { HasServedAll (P.number caller.old) number (2 + size.now.shards + number)
        (P.own caller.old) (P.own caller.new) }
{
    // Each job is rung for once it is posted. While no ring is left that no job was taken for, the worker does
    // not ask the mail.
    let mut rings = 1;
    'jobs: for _ in rt.forever() {
        if rings == 0 {
            rings = caller.rest(rt, board).max(1);
        }
        match take_job(rt, board, caller, size, number) {
            Taken::Job { client, job } => {
                rings -= 1;
                do_job(rt, board, caller, size, number, gate, client, job);
            }
            Taken::Empty => rings = 0,
            Taken::Closed => return,
        }
    }
    unreachable!()
}

/// Does the jobs that wait in a shard's mail, one after the other and each once, until it finds none or has done as many
/// as the core has callers. It tells whether it found the mail closed, after which there are none to come.
pub fn serve_waiting<S: LinkedShard, R: Wait, P: CellCaller<CoreCells<S>>, G: Gate>(
    rt: &R,
    board: &Board<CoreCells<S>>,
    caller: &mut P,
    size: &CoreSize,
    number: u32,
    gate: &G,
) -> bool
    requires board { P.calls_on board.now caller.old }
    requires callers { size.now.sessions + 2 + size.now.shards ≤ callers_of board.now }
    requires there { number < size.now.shards }
    requires worker { IsWorkerOf S.fits S.stands S.says (P.opening caller.old) (P.number caller.old)
        number (2 + size.now.shards + number) }
    requires idle { in_hand (P.own caller.old) ≡ NoneInHand }
    ensures board { P.calls_on board.now caller.new }
    ensures opening { P.opening caller.new ≡ P.opening caller.old }
    ensures number { P.number caller.new ≡ P.number caller.old }
    ensures others { P.others caller.new ≡ P.others caller.old }
    ensures served { OnFalse result (HasServedWaiting (P.number caller.old) number
        (2 + size.now.shards + number) (size.now.sessions + 2 + size.now.shards) (P.own caller.old)
        (P.own caller.new)) }
    ensures all { OnTrue result (HasServedAll (P.number caller.old) number
        (2 + size.now.shards + number) (P.own caller.old) (P.own caller.new)) }
{
    // A caller has one job in a mail at most, so that all that waited at the start are done. Whoever does these for
    // others is not kept by those that come meanwhile.
    'jobs: for _ in 0..size.callers() {
        match take_job(rt, board, caller, size, number) {
            Taken::Job { client, job } => {
                do_job(rt, board, caller, size, number, gate, client, job);
            }
            Taken::Empty => return false,
            Taken::Closed => return true,
        }
    }
    false
}
