//! The flusher's loop.
ghost use Rattle.std.specs.Prelude.{◌≡◌, ◌+◌, ◌≤◌, false};
ghost use Rattle.core_program.specs.Knowing.{IsMailAt};
ghost use Rattle.core_program.specs.Flushing.{IsFlusherOf, KnowsPart};
ghost use Rattle.flush_loop.specs.FlushTurns.{LearnsOfFlushes, lost_at_end};
ghost use Rattle.flush_loop.specs.MadeRounds.{GoesOnKeeping, HasKeptSince};
ghost use Rattle.flusher_mail.specs.FlusherMail.{HasNoFlush};
ghost use Rattle.job_groups.specs.AskedEach.{AreShardMails, HasMore};
ghost use Rattle.turn_board.specs.Passes.{callers_of};

use crate::maker::MakesRounds;
use crate::round_result::RoundResult;
use crate::service::{make_last_round, serve_flush};
use board_callers::CellCaller;
use core_program::{CoreCells, CoreSize};
use cube_core::LinkedShard;
use flusher_mail::take_flush;
use mail_cell::Taken;
use std::sync::Wait;
use turn_board::Board;

/// Serves the flusher's mail until it is closed and has no FLUSH, and rests where there is none. For each
/// FLUSH it makes a round and replies how that ended; once a round was lost to the disk it makes none, and
/// replies that the store is lost. Then it makes the last round of the run and answers how that ended.
/// None: a round was lost to the disk before.
pub fn flush_loop<S: LinkedShard, R: Wait, P: CellCaller<CoreCells<S>>, M: MakesRounds<S>>(
    rt: &R,
    board: &Board<CoreCells<S>>,
    caller: &mut P,
    size: &CoreSize,
    maker: &mut M,
) -> Option<RoundResult>
    requires board { P.calls_on board.now caller.old }
    requires callers { size.now.sessions + 2 + size.now.shards ≤ callers_of board.now }
    requires some { 1 ≤ size.now.shards }
    requires flusher { IsFlusherOf S.fits S.stands S.says (P.opening caller.old)
        (P.number caller.old) (size.now.sessions + 1) size.now.shards }
    requires mail { IsMailAt S.fits S.stands S.says (P.opening caller.old) size.now.shards
        (2 + size.now.shards + size.now.shards) }
    requires mails { AreShardMails S.fits S.stands S.says (P.opening caller.old)
        (size.now.sessions + 1) size.now.shards (2 + size.now.shards) }
    requires serves { M.serves maker.old (P.opening caller.old) }
    requires kept { HasKeptSince S.fits S.stands S.says (P.opening caller.old)
        (P.number caller.old) (size.now.sessions + 1) M.has_kept maker.old (P.own caller.old) }
    requires free { KnowsPart S.fits S.stands S.says (P.opening caller.old) (P.number caller.old)
        (P.own caller.old) (HasNoFlush false) }
    ensures board { P.calls_on board.now caller.new }
    ensures opening { P.opening caller.new ≡ P.opening caller.old }
    ensures number { P.number caller.new ≡ P.number caller.old }
    ensures others { P.others caller.new ≡ P.others caller.old }
    ensures more { HasMore (P.own caller.old) (P.own caller.new) }
    ensures learns { LearnsOfFlushes S.fits S.stands S.says (P.opening caller.old)
        (P.number caller.old) (size.now.sessions + 1) size.now.shards result
        (P.own caller.old) (P.own caller.new) }
    ensures free { KnowsPart S.fits S.stands S.says (P.opening caller.new) (P.number caller.new)
        (P.own caller.new) (HasNoFlush (lost_at_end result)) }
    ensures serves { M.serves maker.new (P.opening caller.new) }
    ensures kept { GoesOnKeeping S.fits S.stands S.says (P.opening caller.old)
        (P.number caller.old) (size.now.sessions + 1) M.has_kept maker.old maker.new
        (P.own caller.old) (P.own caller.new) }
    ensures becomes { M.becomes maker.old maker.new }
{
    let mut lost = false;
    'flushes: for _ in rt.forever() {
        match take_flush(rt, board, caller, size) {
            Taken::Job { client, job } => {
                drop(job);
                lost = serve_flush(rt, board, caller, size, maker, lost, client);
            }
            Taken::Empty => {
                caller.rest(rt, board);
            }
            Taken::Closed => return make_last_round(rt, board, caller, size, maker, lost),
        }
    }
    unreachable!()
}
