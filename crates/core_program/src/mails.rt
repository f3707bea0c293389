//! Calls on a mail: a job is posted and its answer fetched, and main closes.
ghost use Rattle.std.specs.Prelude.{◌≡◌, ◌+◌, ◌≤◌, [], ◌∷◌, ◌++◌};
ghost use Rattle.board_callers.specs.Callers.{HasHistoryOf};
ghost use Rattle.core_program.specs.ClientCalls.{HasFetched, LearnsByFetch, ask_entry, close_entry, post_entry};
ghost use Rattle.core_program.specs.Knowing.{IsClientOf, IsMailAt, Knows, MayFetchFrom, MayPostJob, ServesClient};
ghost use Rattle.core_program.specs.CoreFits.{FitsOwnCalls};
ghost use Rattle.cube_core.specs.CoreSteps.{CoreStep};
ghost use Rattle.turn_board.specs.Passes.{callers_of};

use crate::answer_kinds::{expect_closed, expect_posted, fetched_in};
use crate::answers::answers_fit_their_calls;
use crate::cells::CoreCells;
use crate::clients::{clients_fit_by_what_they_know, clients_learn_by_each_call};
use crate::size::CoreSize;
use board_callers::CellCaller;
use core_cells::MailCall;
use cube_core::{CoreCall, Job, JobAnswer, LinkedShard};
use mail_cell::Fetched;
use std::sync::Wait;
use turn_board::Board;

/// Posts a job to a mail, and wakes whoever serves it where it is said to. The client knows that it may.
#[inline(always)]
pub fn post_job<S: LinkedShard, R: Wait, P: CellCaller<CoreCells<S>>>(
    rt: &R,
    board: &Board<CoreCells<S>>,
    caller: &mut P,
    size: &CoreSize,
    client: u32,
    number: u32,
    job: Job,
    wakes: bool,
)
    requires board { P.calls_on board.now caller.old }
    requires callers { size.now.sessions + 2 + size.now.shards ≤ callers_of board.now }
    requires there { number ≤ size.now.shards }
    requires client { IsClientOf S.fits S.stands S.says (P.opening caller.old)
        (P.number caller.old) client }
    requires mail { IsMailAt S.fits S.stands S.says (P.opening caller.old) number
        (2 + size.now.shards + number) }
    requires may { Knows S.fits S.stands S.says (P.opening caller.old) (P.number caller.old) client
        (P.own caller.old) (MayPostJob S.fits client number job) }
    ensures board { P.calls_on board.now caller.new }
    ensures opening { P.opening caller.new ≡ P.opening caller.old }
    ensures number { P.number caller.new ≡ P.number caller.old }
    ensures others { P.others caller.new ≡ P.others caller.old }
    ensures own { P.own caller.new ≡ P.own caller.old
        ++ post_entry (P.number caller.old) client (2 + size.now.shards + number) job ∷ [] }
{
    clients_fit_by_what_they_know::<S>();
    answers_fit_their_calls::<S>();
    let cell = size.mail_cell(number);
    let post = MailCall::Post { client, job };
    expect_posted(caller.call(rt, board, cell, CoreCall::Mail(post)));
    if wakes {
        board.ring(size.server_of(number));
    }
}

// Asks a mail once for the answer.
#[inline(always)]
fn ask_for_answer<S: LinkedShard, R: Wait, P: CellCaller<CoreCells<S>>>(
    rt: &R,
    board: &Board<CoreCells<S>>,
    caller: &mut P,
    size: &CoreSize,
    client: u32,
    number: u32,
) -> Fetched<JobAnswer>
    requires board { P.calls_on board.now caller.old }
    requires there { number ≤ size.now.shards }
    requires client { IsClientOf S.fits S.stands S.says (P.opening caller.old)
        (P.number caller.old) client }
    requires mail { IsMailAt S.fits S.stands S.says (P.opening caller.old) number
        (2 + size.now.shards + number) }
    requires serves { ServesClient S.fits S.stands S.says (P.opening caller.old) client number }
    requires may { Knows S.fits S.stands S.says (P.opening caller.old) (P.number caller.old) client
        (P.own caller.old) (MayFetchFrom client number) }
    ensures board { P.calls_on board.now caller.new }
    ensures opening { P.opening caller.new ≡ P.opening caller.old }
    ensures number { P.number caller.new ≡ P.number caller.old }
    ensures others { P.others caller.new ≡ P.others caller.old }
    ensures own { P.own caller.new ≡ P.own caller.old
        ++ ask_entry (P.number caller.old) client (2 + size.now.shards + number) result ∷ [] }
    ensures history { HasHistoryOf (CoreStep S.step) (FitsOwnCalls S.fits S.stands S.says)
        (P.opening caller.new) (P.number caller.new) (P.own caller.new) }
{
    clients_fit_by_what_they_know::<S>();
    answers_fit_their_calls::<S>();
    let cell = size.mail_cell(number);
    fetched_in(caller.call(rt, board, cell, CoreCall::Mail(MailCall::Fetch { client })))
}

/// Fetches the answer to the job that the client posted last to a mail, and rests where there is none
/// yet. The client knows that it waits for one.
pub fn fetch_answer<S: LinkedShard, R: Wait, P: CellCaller<CoreCells<S>>>(
    rt: &R,
    board: &Board<CoreCells<S>>,
    caller: &mut P,
    size: &CoreSize,
    client: u32,
    number: u32,
) -> JobAnswer
    requires board { P.calls_on board.now caller.old }
    requires there { number ≤ size.now.shards }
    requires client { IsClientOf S.fits S.stands S.says (P.opening caller.old)
        (P.number caller.old) client }
    requires mail { IsMailAt S.fits S.stands S.says (P.opening caller.old) number
        (2 + size.now.shards + number) }
    requires serves { ServesClient S.fits S.stands S.says (P.opening caller.old) client number }
    requires may { Knows S.fits S.stands S.says (P.opening caller.old) (P.number caller.old) client
        (P.own caller.old) (MayFetchFrom client number) }
    ensures board { P.calls_on board.now caller.new }
    ensures opening { P.opening caller.new ≡ P.opening caller.old }
    ensures number { P.number caller.new ≡ P.number caller.old }
    ensures others { P.others caller.new ≡ P.others caller.old }
    ensures fetched { HasFetched (P.number caller.old) client (2 + size.now.shards + number)
        result (P.own caller.old) (P.own caller.new) }
    ensures learns { LearnsByFetch S.fits S.stands S.says (P.opening caller.old) client number
        result (P.own caller.old) (P.own caller.new) }
    ensures history { HasHistoryOf (CoreStep S.step) (FitsOwnCalls S.fits S.stands S.says)
        (P.opening caller.new) (P.number caller.new) (P.own caller.new) }
{
    clients_learn_by_each_call::<S>();
    'asks: for _ in rt.forever() {
        match ask_for_answer(rt, board, caller, size, client, number) {
            Fetched::Got(said) => return said,
            Fetched::NotYet => {
                caller.rest(rt, board);
            }
        }
    }
    unreachable!()
}

/// Main closes a mail and wakes whoever serves it.
pub fn close_mail<S: LinkedShard, R: Wait, P: CellCaller<CoreCells<S>>>(
    rt: &R,
    board: &Board<CoreCells<S>>,
    caller: &mut P,
    size: &CoreSize,
    number: u32,
)
    requires board { P.calls_on board.now caller.old }
    requires callers { size.now.sessions + 2 + size.now.shards ≤ callers_of board.now }
    requires there { number ≤ size.now.shards }
    requires main { P.number caller.old ≡ 0 }
    requires client { IsClientOf S.fits S.stands S.says (P.opening caller.old) 0 0 }
    requires mail { IsMailAt S.fits S.stands S.says (P.opening caller.old) number
        (2 + size.now.shards + number) }
    ensures board { P.calls_on board.now caller.new }
    ensures opening { P.opening caller.new ≡ P.opening caller.old }
    ensures number { P.number caller.new ≡ P.number caller.old }
    ensures others { P.others caller.new ≡ P.others caller.old }
    ensures own { P.own caller.new
        ≡ P.own caller.old ++ close_entry 0 (2 + size.now.shards + number) ∷ [] }
{
    clients_fit_by_what_they_know::<S>();
    answers_fit_their_calls::<S>();
    let cell = size.mail_cell(number);
    expect_closed(caller.call(rt, board, cell, CoreCall::Mail(MailCall::Close)));
    board.ring(size.server_of(number));
}
