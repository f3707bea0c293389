//! Laws of mails against the events of the core, over every run.

ghost use Rattle.std.specs.Prelude.{◌≡◌, ℕ, ◌<◌, false, true, List, ◌∷◌, length, [], Some};
ghost use Rattle.core_events.specs.Cells.{worker_of, Free};
ghost use Rattle.core_events.specs.Events.{
  Opening,
  CoreEvent,
  By,
  At,
  Post,
  CloseMail,
  NoChange,
  Take,
  NoJob,
  Reply,
};
ghost use Rattle.core_events.specs.Jobs.{CoreJob, JobOutcome};
ghost use Rattle.core_events.specs.Runs.{IsCoreRun, MoveSays};
ghost use Rattle.cube_core.specs.MailCells.{IsMailOf, IsFetched, is_on_mail};
ghost use Rattle.core_events.specs.Histories.{job_served};
ghost use Rattle.mail_cell.specs.State.{MailState, new_mail, place_of};
ghost use Rattle.mail_cell.specs.Steps.{
  after_post,
  after_take,
  after_reply,
  after_fetch,
  after_close,
  fetched,
  taken,
};
ghost use Rattle.mail_cell.specs.declared.answer.Fetched.TheVariants.{Got, NotYet};
ghost use Rattle.mail_cell.specs.declared.answer.Taken.TheVariants.{Job, Empty, Closed};
ghost use Rattle.mail_cell.specs.declared.place.Place.TheVariants.{Idle, Out};

use crate::outcome::StandsForOutcome;

/// Each call on a mail is an event of the core: what the mail asks of its caller holds, what it
/// answers is the event's answer, and it is then what the events have made of it. Other events
/// leave it.
pub fn mails_are_what_events_make<J, A: StandsForOutcome>()
    ensures opens { (job_of : J → CoreJob) (mail clients : ℕ)
        → IsMailOf job_of A.stands_for mail [] (new_mail clients) }
    ensures posts { (job_of : J → CoreJob) (o : Opening)
        (es : List CoreEvent) (mail client : ℕ) (job : J) (m : MailState J A)
        → IsCoreRun o (By client (Post mail (job_of job)) ∷ es)
        → IsMailOf job_of A.stands_for mail es m → client < length m.places
        → (place_of m client ≡ Idle) × IsMailOf job_of A.stands_for mail
        (By client (Post mail (job_of job)) ∷ es) (after_post m client job) }
    ensures fetches { (job_of : J → CoreJob) (o : Opening)
        (es : List CoreEvent) (mail client : ℕ) (answer : A) (m : MailState J A)
        → IsMailOf job_of A.stands_for mail es m → client < length m.places
        → fetched (place_of m client) ≡ Got answer
        → IsFetched job_of A.stands_for o mail client answer es (after_fetch m client) }
    ensures not_yet { (job_of : J → CoreJob) (es : List CoreEvent)
        (mail client : ℕ) (m : MailState J A)
        → IsMailOf job_of A.stands_for mail es m → client < length m.places
        → fetched (place_of m client) ≡ NotYet
        → IsMailOf job_of A.stands_for mail (By client NoChange ∷ es) (after_fetch m client) }
    ensures takes { (job_of : J → CoreJob) (o : Opening)
        (es : List CoreEvent) (mail client : ℕ) (job : J) (m : MailState J A)
        → IsCoreRun o es → worker_of mail es ≡ Free → IsMailOf job_of A.stands_for mail es m
        → taken m.posted m.closed ≡ Job client job
        → MoveSays o es mail (Take client (job_of job)) × IsMailOf job_of A.stands_for mail
        (At mail (Take client (job_of job)) ∷ es) (after_take m) }
    ensures none { (job_of : J → CoreJob) (o : Opening)
        (es : List CoreEvent) (mail : ℕ) (m : MailState J A)
        → IsMailOf job_of A.stands_for mail es m → taken m.posted m.closed ≡ Empty
        → MoveSays o es mail (NoJob false) × IsMailOf job_of A.stands_for mail
        (At mail (NoJob false) ∷ es) (after_take m) }
    ensures closed { (job_of : J → CoreJob) (o : Opening)
        (es : List CoreEvent) (mail : ℕ) (m : MailState J A)
        → IsMailOf job_of A.stands_for mail es m → taken m.posted m.closed ≡ Closed
        → MoveSays o es mail (NoJob true) × IsMailOf job_of A.stands_for mail
        (At mail (NoJob true) ∷ es) (after_take m) }
    ensures replies { (job_of : J → CoreJob) (o : Opening)
        (es : List CoreEvent) (mail client : ℕ) (served : CoreJob) (answer : A)
        (outcome : JobOutcome) (m : MailState J A)
        → job_served (worker_of mail es) ≡ Some served → A.stands_for served answer outcome
        → IsCoreRun o (At mail (Reply client outcome) ∷ es)
        → IsMailOf job_of A.stands_for mail es m → client < length m.places
        → (place_of m client ≡ Out) × IsMailOf job_of A.stands_for mail
        (At mail (Reply client outcome) ∷ es) (after_reply m client answer) }
    ensures closes { (job_of : J → CoreJob) (es : List CoreEvent)
        (mail client : ℕ) (m : MailState J A) → IsMailOf job_of A.stands_for mail es m
        → IsMailOf job_of A.stands_for mail (By client (CloseMail mail) ∷ es) (after_close m) }
    ensures others { (job_of : J → CoreJob) (es : List CoreEvent)
        (mail : ℕ) (event : CoreEvent) (m : MailState J A) → is_on_mail mail event ≡ false
        → IsMailOf job_of A.stands_for mail es m
        → IsMailOf job_of A.stands_for mail (event ∷ es) m }
{}
