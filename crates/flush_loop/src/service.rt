//! A FLUSH that was taken is served, and the last round is made.
ghost use Rattle.std.specs.Prelude.{◌≡◌, ◌+◌, ◌≤◌, false, true};
ghost use Rattle.core_program.specs.Knowing.{IsMailAt};
ghost use Rattle.core_program.specs.Flushing.{IsFlusherOf, KnowsPart};
ghost use Rattle.flush_loop.specs.FlushTurns.{LearnsOfLastRound, LearnsOfService, lost_at_end};
ghost use Rattle.flush_loop.specs.MadeRounds.{GoesOnKeeping, HasKeptSince};
ghost use Rattle.flusher_mail.specs.FlusherMail.{HasFlush, HasNoFlush};
ghost use Rattle.job_groups.specs.AskedEach.{AreShardMails, HasMore};
ghost use Rattle.turn_board.specs.Passes.{callers_of};

use crate::answers::{answer_to_flush, has_lost_store};
use crate::maker::MakesRounds;
use crate::round_result::RoundResult;
use board_callers::CellCaller;
use core_program::{CoreCells, CoreSize};
use cube_core::{FlushAnswer, LinkedShard};
use flusher_mail::reply_flush;
use std::sync::Wait;
use turn_board::Board;

// Serves a FLUSH that was taken from a client: makes a round and replies how that ended, or replies that
// the store is lost. Answers whether it then is.
pub(crate) fn serve_flush<S: LinkedShard, R: Wait, P: CellCaller<CoreCells<S>>, M: MakesRounds<S>>(
    rt: &R,
    board: &Board<CoreCells<S>>,
    caller: &mut P,
    size: &CoreSize,
    maker: &mut M,
    lost: bool,
    to: u32,
) -> bool
    requires board { P.calls_on board.now caller.old }
    requires callers { size.now.sessions + 2 + size.now.shards ≤ callers_of board.now }
    requires some { 1 ≤ size.now.shards }
    requires flusher { IsFlusherOf S.fits S.stands S.says (P.opening caller.old)
        (P.number caller.old) (size.now.sessions + 1) size.now.shards }
    requires mail { IsMailAt S.fits S.stands S.says (P.opening caller.old) size.now.shards
        (2 + size.now.shards + size.now.shards) }
    requires mails { AreShardMails S.fits S.stands S.says (P.opening caller.old)
        (size.now.sessions + 1) size.now.shards (2 + size.now.shards) }
    requires serves { M.serves maker.old (P.opening caller.old) }
    requires kept { HasKeptSince S.fits S.stands S.says (P.opening caller.old)
        (P.number caller.old) (size.now.sessions + 1) M.has_kept maker.old (P.own caller.old) }
    requires taken { KnowsPart S.fits S.stands S.says (P.opening caller.old) (P.number caller.old)
        (P.own caller.old) (HasFlush to lost) }
    ensures board { P.calls_on board.now caller.new }
    ensures opening { P.opening caller.new ≡ P.opening caller.old }
    ensures number { P.number caller.new ≡ P.number caller.old }
    ensures others { P.others caller.new ≡ P.others caller.old }
    ensures more { HasMore (P.own caller.old) (P.own caller.new) }
    ensures learns { LearnsOfService S.fits S.stands S.says (P.opening caller.old)
        (P.number caller.old) (size.now.sessions + 1) size.now.shards lost to result
        (P.own caller.old) (P.own caller.new) }
    ensures free { KnowsPart S.fits S.stands S.says (P.opening caller.new) (P.number caller.new)
        (P.own caller.new) (HasNoFlush result) }
    ensures serves { M.serves maker.new (P.opening caller.new) }
    ensures kept { GoesOnKeeping S.fits S.stands S.says (P.opening caller.old)
        (P.number caller.old) (size.now.sessions + 1) M.has_kept maker.old maker.new
        (P.own caller.old) (P.own caller.new) }
    ensures becomes { M.becomes maker.old maker.new }
{
    if lost {
        refuse_flush(rt, board, caller, size, to);
        return true;
    }
    make_asked_round(rt, board, caller, size, maker, to)
}

// Replies to a FLUSH that the store is lost.
fn refuse_flush<S: LinkedShard, R: Wait, P: CellCaller<CoreCells<S>>>(
    rt: &R,
    board: &Board<CoreCells<S>>,
    caller: &mut P,
    size: &CoreSize,
    to: u32,
)
    requires board { P.calls_on board.now caller.old }
    requires callers { size.now.sessions + 2 + size.now.shards ≤ callers_of board.now }
    requires flusher { IsFlusherOf S.fits S.stands S.says (P.opening caller.old)
        (P.number caller.old) (size.now.sessions + 1) size.now.shards }
    requires mail { IsMailAt S.fits S.stands S.says (P.opening caller.old) size.now.shards
        (2 + size.now.shards + size.now.shards) }
    requires taken { KnowsPart S.fits S.stands S.says (P.opening caller.old) (P.number caller.old)
        (P.own caller.old) (HasFlush to true) }
    ensures board { P.calls_on board.now caller.new }
    ensures opening { P.opening caller.new ≡ P.opening caller.old }
    ensures number { P.number caller.new ≡ P.number caller.old }
    ensures others { P.others caller.new ≡ P.others caller.old }
    ensures more { HasMore (P.own caller.old) (P.own caller.new) }
    ensures learns { LearnsOfService S.fits S.stands S.says (P.opening caller.old)
        (P.number caller.old) (size.now.sessions + 1) size.now.shards true to true
        (P.own caller.old) (P.own caller.new) }
    ensures free { KnowsPart S.fits S.stands S.says (P.opening caller.new) (P.number caller.new)
        (P.own caller.new) (HasNoFlush true) }
{
    reply_flush(rt, board, caller, size, to, FlushAnswer::StoreFailed);
}

// Makes a round for a FLUSH, and replies how it ended. Answers whether the store is then lost.
fn make_asked_round<S: LinkedShard, R: Wait, P: CellCaller<CoreCells<S>>, M: MakesRounds<S>>(
    rt: &R,
    board: &Board<CoreCells<S>>,
    caller: &mut P,
    size: &CoreSize,
    maker: &mut M,
    to: u32,
) -> bool
    requires board { P.calls_on board.now caller.old }
    requires callers { size.now.sessions + 2 + size.now.shards ≤ callers_of board.now }
    requires some { 1 ≤ size.now.shards }
    requires flusher { IsFlusherOf S.fits S.stands S.says (P.opening caller.old)
        (P.number caller.old) (size.now.sessions + 1) size.now.shards }
    requires mail { IsMailAt S.fits S.stands S.says (P.opening caller.old) size.now.shards
        (2 + size.now.shards + size.now.shards) }
    requires mails { AreShardMails S.fits S.stands S.says (P.opening caller.old)
        (size.now.sessions + 1) size.now.shards (2 + size.now.shards) }
    requires serves { M.serves maker.old (P.opening caller.old) }
    requires kept { HasKeptSince S.fits S.stands S.says (P.opening caller.old)
        (P.number caller.old) (size.now.sessions + 1) M.has_kept maker.old (P.own caller.old) }
    requires taken { KnowsPart S.fits S.stands S.says (P.opening caller.old) (P.number caller.old)
        (P.own caller.old) (HasFlush to false) }
    ensures board { P.calls_on board.now caller.new }
    ensures opening { P.opening caller.new ≡ P.opening caller.old }
    ensures number { P.number caller.new ≡ P.number caller.old }
    ensures others { P.others caller.new ≡ P.others caller.old }
    ensures more { HasMore (P.own caller.old) (P.own caller.new) }
    ensures learns { LearnsOfService S.fits S.stands S.says (P.opening caller.old)
        (P.number caller.old) (size.now.sessions + 1) size.now.shards false to result
        (P.own caller.old) (P.own caller.new) }
    ensures free { KnowsPart S.fits S.stands S.says (P.opening caller.new) (P.number caller.new)
        (P.own caller.new) (HasNoFlush result) }
    ensures serves { M.serves maker.new (P.opening caller.new) }
    ensures kept { GoesOnKeeping S.fits S.stands S.says (P.opening caller.old)
        (P.number caller.old) (size.now.sessions + 1) M.has_kept maker.old maker.new
        (P.own caller.old) (P.own caller.new) }
    ensures becomes { M.becomes maker.old maker.new }
{
    let ended = maker.make_round(rt, board, caller, size);
    reply_flush(rt, board, caller, size, to, answer_to_flush(ended));
    has_lost_store(ended)
}

// Makes the last round, unless the store is lost.
pub(crate) fn make_last_round<
    S: LinkedShard,
    R: Wait,
    P: CellCaller<CoreCells<S>>,
    M: MakesRounds<S>,
>(
    rt: &R,
    board: &Board<CoreCells<S>>,
    caller: &mut P,
    size: &CoreSize,
    maker: &mut M,
    lost: bool,
) -> Option<RoundResult>
    requires board { P.calls_on board.now caller.old }
    requires callers { size.now.sessions + 2 + size.now.shards ≤ callers_of board.now }
    requires some { 1 ≤ size.now.shards }
    requires flusher { IsFlusherOf S.fits S.stands S.says (P.opening caller.old)
        (P.number caller.old) (size.now.sessions + 1) size.now.shards }
    requires mails { AreShardMails S.fits S.stands S.says (P.opening caller.old)
        (size.now.sessions + 1) size.now.shards (2 + size.now.shards) }
    requires serves { M.serves maker.old (P.opening caller.old) }
    requires kept { HasKeptSince S.fits S.stands S.says (P.opening caller.old)
        (P.number caller.old) (size.now.sessions + 1) M.has_kept maker.old (P.own caller.old) }
    requires free { KnowsPart S.fits S.stands S.says (P.opening caller.old) (P.number caller.old)
        (P.own caller.old) (HasNoFlush lost) }
    ensures board { P.calls_on board.now caller.new }
    ensures opening { P.opening caller.new ≡ P.opening caller.old }
    ensures number { P.number caller.new ≡ P.number caller.old }
    ensures others { P.others caller.new ≡ P.others caller.old }
    ensures more { HasMore (P.own caller.old) (P.own caller.new) }
    ensures learns { LearnsOfLastRound S.fits S.stands S.says (P.opening caller.old)
        (P.number caller.old) (size.now.sessions + 1) size.now.shards lost result
        (P.own caller.old) (P.own caller.new) }
    ensures free { KnowsPart S.fits S.stands S.says (P.opening caller.new) (P.number caller.new)
        (P.own caller.new) (HasNoFlush (lost_at_end result)) }
    ensures serves { M.serves maker.new (P.opening caller.new) }
    ensures kept { GoesOnKeeping S.fits S.stands S.says (P.opening caller.old)
        (P.number caller.old) (size.now.sessions + 1) M.has_kept maker.old maker.new
        (P.own caller.old) (P.own caller.new) }
    ensures becomes { M.becomes maker.old maker.new }
{
    if lost {
        return None;
    }
    Some(maker.make_round(rt, board, caller, size))
}
