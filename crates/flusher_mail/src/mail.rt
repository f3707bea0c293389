//! Taking a FLUSH and replying to it.
ghost use Rattle.std.specs.Prelude.{◌≡◌, ◌+◌, ◌≤◌, Bool, [], ◌∷◌, ◌++◌};
ghost use Rattle.core_program.specs.Knowing.{IsMailAt};
ghost use Rattle.core_program.specs.Flushing.{IsFlusherOf, KnowsPart, MayReplyTo, MayTakeJob};
ghost use Rattle.cube_core.specs.declared.jobs.JobAnswer.TheVariants as reply;
ghost use Rattle.flusher_mail.specs.FlusherMail.{HasFlush, HasNoFlush, IsAtMailAfter, LearnsOfReply, LearnsOfTake, reply_entry, take_entry};
ghost use Rattle.turn_board.specs.Passes.{callers_of};

use crate::answers::{expect_replied, taken_in};
use board_callers::CellCaller;
use core_cells::MailCall;
use core_program::{
    CoreCells, CoreSize, answers_fit_their_calls, the_flusher_fits_by_what_it_knows,
    the_flusher_learns_by_each_call,
};
use cube_core::{CoreCall, FlushAnswer, Job, JobAnswer, LinkedShard};
use mail_cell::Taken;
use std::sync::Wait;
use turn_board::Board;

/// Takes the FLUSH that was posted first to the flusher's mail, or finds that none is, and whether the
/// mail is closed. The flusher has replied to each that it took. Between two rounds it stays so.
pub fn take_flush<S: LinkedShard, R: Wait, P: CellCaller<CoreCells<S>>>(
    rt: &R,
    board: &Board<CoreCells<S>>,
    caller: &mut P,
    size: &CoreSize,
) -> Taken<Job>
    requires board { P.calls_on board.now caller.old }
    requires flusher { IsFlusherOf S.fits S.stands S.says (P.opening caller.old)
        (P.number caller.old) (size.now.sessions + 1) size.now.shards }
    requires mail { IsMailAt S.fits S.stands S.says (P.opening caller.old) size.now.shards
        (2 + size.now.shards + size.now.shards) }
    requires free { KnowsPart S.fits S.stands S.says (P.opening caller.old) (P.number caller.old)
        (P.own caller.old) MayTakeJob }
    ensures board { P.calls_on board.now caller.new }
    ensures opening { P.opening caller.new ≡ P.opening caller.old }
    ensures number { P.number caller.new ≡ P.number caller.old }
    ensures others { P.others caller.new ≡ P.others caller.old }
    ensures own { P.own caller.new ≡ P.own caller.old
        ++ take_entry (P.number caller.old) (2 + size.now.shards + size.now.shards) result ∷ [] }
    ensures learns { LearnsOfTake S.fits S.stands S.says (P.opening caller.old)
        (P.number caller.old) size.now.shards result (P.own caller.old) (P.own caller.new) }
    ensures after { (lost : Bool) → KnowsPart S.fits S.stands S.says (P.opening caller.old)
        (P.number caller.old) (P.own caller.old) (HasNoFlush lost)
        → KnowsPart S.fits S.stands S.says (P.opening caller.new) (P.number caller.new)
        (P.own caller.new) (IsAtMailAfter result lost) }
{
    the_flusher_fits_by_what_it_knows::<S>();
    the_flusher_learns_by_each_call::<S>();
    answers_fit_their_calls::<S>();
    let cell = size.mail_cell(size.shards);
    taken_in(caller.call(rt, board, cell, CoreCall::Mail(MailCall::Take)))
}

/// Replies to the FLUSH that the flusher took from a client, and wakes it. The flusher knows that it may
/// say so. It then has no FLUSH in hand, and between two rounds it stays so.
pub fn reply_flush<S: LinkedShard, R: Wait, P: CellCaller<CoreCells<S>>>(
    rt: &R,
    board: &Board<CoreCells<S>>,
    caller: &mut P,
    size: &CoreSize,
    client: u32,
    said: FlushAnswer,
)
    requires board { P.calls_on board.now caller.old }
    requires callers { size.now.sessions + 2 + size.now.shards ≤ callers_of board.now }
    requires flusher { IsFlusherOf S.fits S.stands S.says (P.opening caller.old)
        (P.number caller.old) (size.now.sessions + 1) size.now.shards }
    requires mail { IsMailAt S.fits S.stands S.says (P.opening caller.old) size.now.shards
        (2 + size.now.shards + size.now.shards) }
    requires may { KnowsPart S.fits S.stands S.says (P.opening caller.old) (P.number caller.old)
        (P.own caller.old) (MayReplyTo S.says client (reply.Flush said)) }
    ensures board { P.calls_on board.now caller.new }
    ensures opening { P.opening caller.new ≡ P.opening caller.old }
    ensures number { P.number caller.new ≡ P.number caller.old }
    ensures others { P.others caller.new ≡ P.others caller.old }
    ensures own { P.own caller.new ≡ P.own caller.old ++ reply_entry (P.number caller.old)
        (2 + size.now.shards + size.now.shards) client said ∷ [] }
    ensures learns { LearnsOfReply S.fits S.stands S.says (P.opening caller.old)
        (P.number caller.old) size.now.shards client said (P.own caller.old) (P.own caller.new) }
    ensures after { (lost : Bool) → KnowsPart S.fits S.stands S.says (P.opening caller.old)
        (P.number caller.old) (P.own caller.old) (HasFlush client lost)
        → KnowsPart S.fits S.stands S.says (P.opening caller.new) (P.number caller.new)
        (P.own caller.new) (HasNoFlush lost) }
{
    the_flusher_fits_by_what_it_knows::<S>();
    the_flusher_learns_by_each_call::<S>();
    answers_fit_their_calls::<S>();
    let cell = size.mail_cell(size.shards);
    let reply = MailCall::Reply {
        client,
        answer: JobAnswer::Flush(said),
    };
    expect_replied(caller.call(rt, board, cell, CoreCall::Mail(reply)));
    board.ring(size.caller_of(client));
}
