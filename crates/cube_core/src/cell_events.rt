//! Laws of calls on cells against the events of the core, over every run.

ghost use Rattle.std.specs.Prelude.{◌≡◌, ℕ, false, List, ◌∷◌};
ghost use Rattle.aosi_desk.specs.Desks.{DeskState};
ghost use Rattle.core_cells.specs.DeskCalls.{CanCallDesk, DeskStep};
ghost use Rattle.core_cells.specs.MailCalls.{CanCallMail, MailStep};
ghost use Rattle.core_cells.specs.NamesCalls.{CanCallNames, NamesStep};
ghost use Rattle.core_cells.specs.declared.desk.DeskAnswer.{DeskAnswer};
ghost use Rattle.core_cells.specs.declared.desk.DeskCall.{DeskCall};
ghost use Rattle.core_cells.specs.declared.mail.MailAnswer.{MailAnswer};
ghost use Rattle.core_cells.specs.declared.mail.MailCall.{MailCall};
ghost use Rattle.core_cells.specs.declared.names.NamesAnswer.{NamesAnswer};
ghost use Rattle.core_cells.specs.declared.names.NamesCall.{NamesCall};
ghost use Rattle.core_events.specs.Cells.{desk_of};
ghost use Rattle.core_events.specs.Clients.{client_state};
ghost use Rattle.core_events.specs.Events.{Opening, CoreEvent, By};
ghost use Rattle.core_events.specs.Jobs.{CoreJob};
ghost use Rattle.core_events.specs.Runs.{IsCoreRun};
ghost use Rattle.cube_core.specs.DeskEvents.{desk_event, FitsDeskCall, is_on_desk};
ghost use Rattle.cube_core.specs.MailEvents.{FitsMailCall, IsMailCellOf, IsMailLinked};
ghost use Rattle.cube_core.specs.NamesEvents.{names_event, FitsNamesCall, AreNamesOf, is_on_names};
ghost use Rattle.cube_core.specs.MailCells.{is_on_mail};
ghost use Rattle.mail_cell.specs.State.{MailState};
ghost use Rattle.names_dict.specs.Dictionaries.{Dictionary};

use crate::StandsForOutcome;

/// Each call on the desk is an event of the core: the desk can take a call that fits, its answer is
/// the event's, and it is then what the events have made of it. Other events leave it.
pub fn desk_calls_are_events()
    ensures can { (o : Opening) (a : ℕ) (call : DeskCall) (es : List CoreEvent) → IsCoreRun o es
        → FitsDeskCall o a call (client_state o a es) → CanCallDesk (desk_of o es) call }
    ensures steps { (o : Opening) (a : ℕ) (call : DeskCall) (answer : DeskAnswer)
        (es : List CoreEvent) (new : DeskState) → IsCoreRun o es
        → FitsDeskCall o a call (client_state o a es) → DeskStep (desk_of o es) call answer new
        → IsCoreRun o (By a (desk_event a (client_state o a es) call answer) ∷ es)
        × (new ≡ desk_of o (By a (desk_event a (client_state o a es) call answer) ∷ es)) }
    ensures others { (o : Opening) (event : CoreEvent) (es : List CoreEvent)
        → is_on_desk event ≡ false → desk_of o (event ∷ es) ≡ desk_of o es }
{}

/// Each call on the names is an event of the core: the dictionaries can take a call that fits, its
/// answer is the event's, and they are then what the events have made of them. Other events leave
/// them. So a code that was answered keeps its name.
pub fn names_calls_are_events()
    ensures can { (o : Opening) (a : ℕ) (call : NamesCall) (es : List CoreEvent)
        (names : List (List Dictionary)) → IsCoreRun o es
        → FitsNamesCall o a call (client_state o a es) → AreNamesOf o es names
        → CanCallNames names call }
    ensures steps { (o : Opening) (a : ℕ) (call : NamesCall) (answer : NamesAnswer)
        (es : List CoreEvent) (names new : List (List Dictionary)) → IsCoreRun o es
        → FitsNamesCall o a call (client_state o a es) → AreNamesOf o es names
        → NamesStep names call answer new → IsCoreRun o (By a (names_event call answer) ∷ es)
        × AreNamesOf o (By a (names_event call answer) ∷ es) new }
    ensures others { (o : Opening) (event : CoreEvent) (es : List CoreEvent)
        (names : List (List Dictionary)) → is_on_names event ≡ false → AreNamesOf o es names
        → AreNamesOf o (event ∷ es) names }
{}

/// Each call on a mail is an event of the core: the mail can take a call that fits, its answer stands
/// for the event's, and it is then what the events have made of it. Other events leave it.
pub fn mail_calls_are_events<J, A: StandsForOutcome>()
    ensures can { (job_of : J → CoreJob) (o : Opening)
        (mail : ℕ) (call : MailCall J A) (es : List CoreEvent) (m : MailState J A) → IsCoreRun o es
        → FitsMailCall job_of A.stands_for o es mail call
        → IsMailCellOf job_of A.stands_for o mail es m → CanCallMail m call }
    ensures steps { (job_of : J → CoreJob) (o : Opening)
        (mail : ℕ) (call : MailCall J A) (said : MailAnswer J A) (es : List CoreEvent)
        (m new : MailState J A) → IsCoreRun o es → FitsMailCall job_of A.stands_for o es mail call
        → IsMailCellOf job_of A.stands_for o mail es m → MailStep m call said new
        → IsMailLinked job_of A.stands_for o mail call said es new }
    ensures others { (job_of : J → CoreJob) (o : Opening)
        (mail : ℕ) (event : CoreEvent) (es : List CoreEvent) (m : MailState J A)
        → is_on_mail mail event ≡ false → IsMailCellOf job_of A.stands_for o mail es m
        → IsMailCellOf job_of A.stands_for o mail (event ∷ es) m }
{}
