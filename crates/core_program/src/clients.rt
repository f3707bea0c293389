//! The laws of clients.

ghost use Rattle.std.specs.Prelude.{◌≡◌, ℕ, List, [], ◌∷◌, ◌++◌};
ghost use Rattle.board_callers.specs.Callers.{HasHistoryOf};
ghost use Rattle.core_cells.specs.declared.desk.DeskAnswer.{DeskAnswer};
ghost use Rattle.core_cells.specs.declared.desk.DeskCall.{DeskCall};
ghost use Rattle.core_cells.specs.declared.mail.MailAnswer.TheVariants as got;
ghost use Rattle.core_cells.specs.declared.mail.MailCall.TheVariants as mail;
ghost use Rattle.core_cells.specs.declared.names.NamesAnswer.{NamesAnswer};
ghost use Rattle.core_cells.specs.declared.names.NamesCall.{NamesCall};
ghost use Rattle.core_program.specs.Knowing.{GoOnBy, GoOnByFetch, GoOnFrom, HasRunOfClient, IsClientOf, IsLaterRun, IsMailAt, Knows, MayCallDesk, MayCallNames, MayFetchFrom, MayPostJob, ServesClient};
ghost use Rattle.cube_core.specs.Links.{AreEventsOf};
ghost use Rattle.cube_core.specs.BoardCells.{IsEntryEvent, job_asked};
ghost use Rattle.core_events.specs.Clients.{state_from_calls};
ghost use Rattle.core_events.specs.Events.{Opening, CloseMail, CoreEvent, NoChange, Post};
ghost use Rattle.cube_core.specs.DeskEvents.{desk_event};
ghost use Rattle.cube_core.specs.NamesEvents.{names_event};
ghost use Rattle.core_program.specs.CoreFits.{CoreEntry, FitsOwnCalls, OpensCells};
ghost use Rattle.cube_core.specs.CoreSteps.{CoreStep};
ghost use Rattle.cube_core.specs.declared.cell.CoreAnswer.TheVariants as answer;
ghost use Rattle.cube_core.specs.declared.cell.CoreCall.TheVariants as call;
ghost use Rattle.cube_core.specs.declared.cell.CoreCell.{CoreCell};
ghost use Rattle.cube_core.specs.declared.jobs.Job.{Job};
ghost use Rattle.cube_core.specs.declared.jobs.JobAnswer.{JobAnswer};
ghost use Rattle.mail_cell.specs.declared.answer.Fetched.TheVariants.{Got, NotYet};
ghost use Rattle.turn_board.specs.History.{event};

use cube_core::LinkedShard;

/// A client may make a call where it knows that it may, by its own calls alone.
pub fn clients_fit_by_what_they_know<S: LinkedShard>()
    ensures desk { (cells : List (CoreCell S)) (caller client : ℕ) (own : List CoreEntry)
        (c : DeskCall) → IsClientOf S.fits S.stands S.says cells caller client
        → Knows S.fits S.stands S.says cells caller client own (MayCallDesk client c)
        → FitsOwnCalls S.fits S.stands S.says cells caller own 0 (call.Desk c) }
    ensures names { (cells : List (CoreCell S)) (caller client : ℕ) (own : List CoreEntry)
        (c : NamesCall) → IsClientOf S.fits S.stands S.says cells caller client
        → Knows S.fits S.stands S.says cells caller client own (MayCallNames client c)
        → FitsOwnCalls S.fits S.stands S.says cells caller own 1 (call.Names c) }
    ensures post { (cells : List (CoreCell S)) (caller client number cell : ℕ)
        (own : List CoreEntry) (job : Job) → IsClientOf S.fits S.stands S.says cells caller client
        → IsMailAt S.fits S.stands S.says cells number cell
        → Knows S.fits S.stands S.says cells caller client own
        (MayPostJob S.fits client number job)
        → FitsOwnCalls S.fits S.stands S.says cells caller own cell
        (call.Mail (mail.Post client job)) }
    ensures fetch { (cells : List (CoreCell S)) (caller client number cell : ℕ)
        (own : List CoreEntry) → IsClientOf S.fits S.stands S.says cells caller client
        → IsMailAt S.fits S.stands S.says cells number cell
        → ServesClient S.fits S.stands S.says cells client number
        → Knows S.fits S.stands S.says cells caller client own (MayFetchFrom client number)
        → FitsOwnCalls S.fits S.stands S.says cells caller own cell
        (call.Mail (mail.Fetch client)) }
    ensures close { (cells : List (CoreCell S)) (number cell : ℕ) (own : List CoreEntry)
        → IsClientOf S.fits S.stands S.says cells 0 0
        → IsMailAt S.fits S.stands S.says cells number cell
        → FitsOwnCalls S.fits S.stands S.says cells 0 own cell (call.Mail mail.Close) }
{}

/// By one call more, with its answer, a client's own calls go on by one call of the core, and a fetch
/// gives an outcome of the job that the client posted last to that mail.
pub fn clients_learn_by_each_call<S: LinkedShard>()
    ensures desk { (cells : List (CoreCell S)) (caller client : ℕ) (own : List CoreEntry)
        (c : DeskCall) (a : DeskAnswer) (o : Opening) (log : List CoreEntry) (es : List CoreEvent)
        → IsClientOf S.fits S.stands S.says cells caller client
        → OpensCells S.fits S.stands S.says o cells log
        → AreEventsOf (IsEntryEvent S.fits S.stands S.says o)
        (own ++ event caller 0 (call.Desk c) (answer.Desk a) ∷ []) es
        → GoOnBy S.fits S.stands S.says cells o client own es
        (λ calls. desk_event client (state_from_calls o client calls) c a) }
    ensures names { (cells : List (CoreCell S)) (caller client : ℕ) (own : List CoreEntry)
        (c : NamesCall) (a : NamesAnswer) (o : Opening) (log : List CoreEntry) (es : List CoreEvent)
        → IsClientOf S.fits S.stands S.says cells caller client
        → OpensCells S.fits S.stands S.says o cells log
        → AreEventsOf (IsEntryEvent S.fits S.stands S.says o)
        (own ++ event caller 1 (call.Names c) (answer.Names a) ∷ []) es
        → GoOnBy S.fits S.stands S.says cells o client own es (λ calls. names_event c a) }
    ensures post { (cells : List (CoreCell S)) (caller client number cell : ℕ)
        (own : List CoreEntry) (job : Job) (o : Opening) (log : List CoreEntry)
        (es : List CoreEvent)
        → IsClientOf S.fits S.stands S.says cells caller client
        → IsMailAt S.fits S.stands S.says cells number cell
        → OpensCells S.fits S.stands S.says o cells log
        → AreEventsOf (IsEntryEvent S.fits S.stands S.says o)
        (own ++ event caller cell (call.Mail (mail.Post client job)) (answer.Mail got.Done) ∷ []) es
        → GoOnBy S.fits S.stands S.says cells o client own es
        (λ calls. Post number (job_asked job)) }
    ensures fetch { (cells : List (CoreCell S)) (caller client number cell : ℕ)
        (own : List CoreEntry) (said : JobAnswer) (o : Opening) (log : List CoreEntry)
        (es : List CoreEvent)
        → IsClientOf S.fits S.stands S.says cells caller client
        → IsMailAt S.fits S.stands S.says cells number cell
        → OpensCells S.fits S.stands S.says o cells log
        → AreEventsOf (IsEntryEvent S.fits S.stands S.says o)
        (own ++ event caller cell (call.Mail (mail.Fetch client))
        (answer.Mail (got.Fetched (Got said))) ∷ []) es
        → GoOnByFetch S.fits S.stands S.says cells o client number own es said }
    ensures waiting { (cells : List (CoreCell S)) (caller client number cell : ℕ)
        (own : List CoreEntry) (o : Opening) (log : List CoreEntry) (es : List CoreEvent)
        → IsClientOf S.fits S.stands S.says cells caller client
        → IsMailAt S.fits S.stands S.says cells number cell
        → OpensCells S.fits S.stands S.says o cells log
        → AreEventsOf (IsEntryEvent S.fits S.stands S.says o)
        (own ++ event caller cell (call.Mail (mail.Fetch client))
        (answer.Mail (got.Fetched NotYet)) ∷ []) es
        → GoOnBy S.fits S.stands S.says cells o client own es (λ calls. NoChange) }
    ensures closed { (cells : List (CoreCell S)) (number cell : ℕ) (own : List CoreEntry)
        (o : Opening) (log : List CoreEntry) (es : List CoreEvent)
        → IsClientOf S.fits S.stands S.says cells 0 0
        → IsMailAt S.fits S.stands S.says cells number cell
        → OpensCells S.fits S.stands S.says o cells log
        → AreEventsOf (IsEntryEvent S.fits S.stands S.says o)
        (own ++ event 0 cell (call.Mail mail.Close) (answer.Mail got.Done) ∷ []) es
        → GoOnBy S.fits S.stands S.says cells o 0 own es (λ calls. CloseMail number) }
{}

/// What a client knew by its own calls still holds of these after more of them: a moment after more is
/// a later one, and the events of more go on from those of the first.
pub fn own_calls_go_on<S: LinkedShard>()
    ensures runs { (cells : List (CoreCell S)) (o : Opening) (caller : ℕ)
        (own more log : List CoreEntry) (run : List CoreEvent)
        → IsLaterRun S.fits S.stands S.says cells o caller (own ++ more) log run
        → IsLaterRun S.fits S.stands S.says cells o caller own log run }
    ensures events { (cells : List (CoreCell S)) (o : Opening) (own more : List CoreEntry)
        (es : List CoreEvent)
        → AreEventsOf (IsEntryEvent S.fits S.stands S.says o) (own ++ more) es
        → GoOnFrom S.fits S.stands S.says cells o own es }
{}

/// The history of a client's calls is that of a run, in whatever way one opens with the cells. There the
/// client has made the calls that its own entries are, of which all holds that it knows.
pub fn clients_know_their_runs<S: LinkedShard>()
    ensures { (cells : List (CoreCell S)) (caller client : ℕ) (own : List CoreEntry) (o : Opening)
        → IsClientOf S.fits S.stands S.says cells caller client
        → (h : HasHistoryOf (CoreStep S.step) (FitsOwnCalls S.fits S.stands S.says) cells caller own)
        → OpensCells S.fits S.stands S.says o cells h.log
        → HasRunOfClient S.fits S.stands S.says cells o caller client own h.log }
{}
