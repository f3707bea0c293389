//! The laws of the flusher.

ghost use Rattle.std.specs.Prelude.{◌≡◌, ◌<◌, ℕ, List, [], ◌∷◌, ◌++◌, map, Some, true, false};
ghost use Rattle.board_callers.specs.Callers.{HasHistoryOf};
ghost use Rattle.cube_core.specs.Links.{AreEventsOf};
ghost use Rattle.cube_core.specs.BoardCells.{IsEntryEvent, flusher_part, job_asked};
ghost use Rattle.core_cells.specs.declared.mail.MailAnswer.TheVariants as got;
ghost use Rattle.core_cells.specs.declared.mail.MailCall.TheVariants as mail;
ghost use Rattle.core_program.specs.Knowing.{IsClientOf, IsMailAt, ServesClient};
ghost use Rattle.core_events.specs.Cells.{worker_of};
ghost use Rattle.core_events.specs.Events.{Opening, CoreEvent, ClientCall, By, At, NoJob, Take, Reply, flusher};
ghost use Rattle.core_program.specs.Flushing.{GoOnByAnswer, GoOnByEvent, HasRunOfFlusher, IsFlusherOf, KnowsPart, MayReplyTo, MayTakeJob, part_with_calls};
ghost use Rattle.core_events.specs.Histories.{job_served};
ghost use Rattle.core_program.specs.CoreFits.{CoreEntry, FitsOwnCalls, OpensCells};
ghost use Rattle.cube_core.specs.CoreSteps.{CoreStep};
ghost use Rattle.cube_core.specs.declared.cell.CoreAnswer.TheVariants as answer;
ghost use Rattle.cube_core.specs.declared.cell.CoreCall.TheVariants as call;
ghost use Rattle.cube_core.specs.declared.cell.CoreCell.{CoreCell};
ghost use Rattle.cube_core.specs.declared.jobs.Job.{Job};
ghost use Rattle.cube_core.specs.declared.jobs.JobAnswer.{JobAnswer};
ghost use Rattle.mail_cell.specs.declared.answer.Taken.TheVariants as taken;
ghost use Rattle.turn_board.specs.History.{event};

use cube_core::LinkedShard;

/// The flusher is a client, and one of the clients of each shard's mail.
pub fn the_flusher_is_a_client<S: LinkedShard>()
    ensures client { (cells : List (CoreCell S)) (caller client shards : ℕ)
        → IsFlusherOf S.fits S.stands S.says cells caller client shards
        → IsClientOf S.fits S.stands S.says cells caller client }
    ensures served { (cells : List (CoreCell S)) (caller client shards number : ℕ)
        → IsFlusherOf S.fits S.stands S.says cells caller client shards → number < shards
        → ServesClient S.fits S.stands S.says cells client number }
{}

/// By its calls as a client, what its own calls tell goes on with its rounds and leaves its job.
pub fn the_flusher_goes_on_by_its_calls()
    ensures { (o : Opening) (calls : List ClientCall) (es : List CoreEvent)
        → flusher_part o (map (λ c. By (flusher o) c) calls ++ es)
        ≡ part_with_calls calls (flusher_part o es) }
{}

/// As the worker of its mail, the flusher may make a call where it knows that it may, by its own calls
/// alone.
pub fn the_flusher_fits_by_what_it_knows<S: LinkedShard>()
    ensures take { (cells : List (CoreCell S)) (caller client shards cell : ℕ)
        (own : List CoreEntry) → IsFlusherOf S.fits S.stands S.says cells caller client shards
        → IsMailAt S.fits S.stands S.says cells shards cell
        → KnowsPart S.fits S.stands S.says cells caller own MayTakeJob
        → FitsOwnCalls S.fits S.stands S.says cells caller own cell (call.Mail mail.Take) }
    ensures reply { (cells : List (CoreCell S)) (caller client shards cell to : ℕ)
        (own : List CoreEntry) (said : JobAnswer)
        → IsFlusherOf S.fits S.stands S.says cells caller client shards
        → IsMailAt S.fits S.stands S.says cells shards cell
        → KnowsPart S.fits S.stands S.says cells caller own (MayReplyTo S.says to said)
        → FitsOwnCalls S.fits S.stands S.says cells caller own cell
        (call.Mail (mail.Reply to said)) }
{}

/// By one call more on its mail, with its answer, the flusher's own calls go on by one event of the
/// core.
pub fn the_flusher_learns_by_each_call<S: LinkedShard>()
    ensures took { (cells : List (CoreCell S)) (caller client shards cell to : ℕ)
        (own : List CoreEntry) (job : Job) (o : Opening) (log : List CoreEntry)
        (es : List CoreEvent)
        → IsFlusherOf S.fits S.stands S.says cells caller client shards
        → IsMailAt S.fits S.stands S.says cells shards cell
        → OpensCells S.fits S.stands S.says o cells log
        → AreEventsOf (IsEntryEvent S.fits S.stands S.says o)
        (own ++ event caller cell (call.Mail mail.Take)
        (answer.Mail (got.Taken (taken.Job to job))) ∷ []) es
        → GoOnByEvent S.fits S.stands S.says cells o own es
        (λ before. At shards (Take to (job_asked job))) }
    ensures found_none { (cells : List (CoreCell S)) (caller client shards cell : ℕ)
        (own : List CoreEntry) (o : Opening) (log : List CoreEntry) (es : List CoreEvent)
        → IsFlusherOf S.fits S.stands S.says cells caller client shards
        → IsMailAt S.fits S.stands S.says cells shards cell
        → OpensCells S.fits S.stands S.says o cells log
        → AreEventsOf (IsEntryEvent S.fits S.stands S.says o)
        (own ++ event caller cell (call.Mail mail.Take)
        (answer.Mail (got.Taken taken.Empty)) ∷ []) es
        → GoOnByEvent S.fits S.stands S.says cells o own es (λ before. At shards (NoJob false)) }
    ensures found_closed { (cells : List (CoreCell S)) (caller client shards cell : ℕ)
        (own : List CoreEntry) (o : Opening) (log : List CoreEntry) (es : List CoreEvent)
        → IsFlusherOf S.fits S.stands S.says cells caller client shards
        → IsMailAt S.fits S.stands S.says cells shards cell
        → OpensCells S.fits S.stands S.says o cells log
        → AreEventsOf (IsEntryEvent S.fits S.stands S.says o)
        (own ++ event caller cell (call.Mail mail.Take)
        (answer.Mail (got.Taken taken.Closed)) ∷ []) es
        → GoOnByEvent S.fits S.stands S.says cells o own es (λ before. At shards (NoJob true)) }
    ensures replied { (cells : List (CoreCell S)) (caller client shards cell to : ℕ)
        (own : List CoreEntry) (said : JobAnswer) (o : Opening) (log : List CoreEntry)
        (es : List CoreEvent) → IsFlusherOf S.fits S.stands S.says cells caller client shards
        → IsMailAt S.fits S.stands S.says cells shards cell
        → OpensCells S.fits S.stands S.says o cells log
        → AreEventsOf (IsEntryEvent S.fits S.stands S.says o)
        (own ++ event caller cell (call.Mail (mail.Reply to said)) (answer.Mail got.Done) ∷ []) es
        → GoOnByAnswer S.fits S.stands S.says cells o own es said
        (λ before job. job_served (worker_of shards before) ≡ Some job)
        (λ outcome. At shards (Reply to outcome)) }
{}

/// The history of the flusher's calls is that of a run, in whatever way one opens with the cells, which
/// tells of it what its own entries tell.
pub fn the_flusher_knows_its_runs<S: LinkedShard>()
    ensures { (cells : List (CoreCell S)) (caller client shards : ℕ) (own : List CoreEntry)
        (o : Opening) → IsFlusherOf S.fits S.stands S.says cells caller client shards
        → (h : HasHistoryOf (CoreStep S.step) (FitsOwnCalls S.fits S.stands S.says) cells caller own)
        → OpensCells S.fits S.stands S.says o cells h.log
        → HasRunOfFlusher S.fits S.stands S.says cells o caller own h.log }
{}
