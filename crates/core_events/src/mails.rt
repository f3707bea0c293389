//! Laws of the mails, over every run of the core.

ghost use Rattle.std.specs.Prelude.{◌≡◌, ℕ, true, List, ◌∷◌, ◌++◌, Some};
ghost use Rattle.core_events.specs.Cells.{queue_of, reply_for, worker_of};
ghost use Rattle.core_events.specs.Events.{Opening, CoreEvent, By, At, Post, Reply};
ghost use Rattle.core_events.specs.Jobs.{CoreJob, JobOutcome};
ghost use Rattle.core_events.specs.Runs.{IsCoreRun};
ghost use Rattle.core_events.specs.Histories.{
  posts_of,
  takes_of,
  jobs_done,
  letters_of,
  job_to_come,
  job_served,
  is_serving,
  last_post,
  IsAnswered,
  HasJobOut,
  HasNoJob,
};

/// Jobs are taken in the order in which they were posted, and each is done once, in that order.
pub fn workers_do_what_they_take()
    ensures order { (o : Opening) (es : List CoreEvent) (mail : ℕ) → IsCoreRun o es
        → posts_of mail es ≡ takes_of mail es ++ queue_of mail es }
    ensures once { (o : Opening) (es : List CoreEvent) (mail : ℕ) → IsCoreRun o es
        → takes_of mail es ≡ letters_of (jobs_done mail es) ++ job_to_come (worker_of mail es) }
{}

/// What a mail holds for a client is the answer of the one job that was done for its last post, and the job
/// that a worker has is its client's last.
pub fn fetches_serve_posts()
    ensures answered { (o : Opening) (es : List CoreEvent) (mail client : ℕ) (answer : JobOutcome)
        → IsCoreRun o es
        → reply_for mail client es ≡ Some answer → IsAnswered mail client answer es }
    ensures served { (o : Opening) (es : List CoreEvent) (mail client : ℕ) (job : CoreJob)
        → IsCoreRun o es → is_serving client (worker_of mail es) ≡ true
        → job_served (worker_of mail es) ≡ Some job → last_post mail client es ≡ Some job }
{}

/// What a mail asks of whoever calls it holds of each post and reply that fits: who posts has no job there
/// and no answer to fetch, and a reply is to the client whose job is out.
pub fn mail_calls_meet_their_conditions()
    ensures posts { (o : Opening) (a mail : ℕ) (job : CoreJob) (es : List CoreEvent)
        → IsCoreRun o (By a (Post mail job) ∷ es) → HasNoJob mail a es }
    ensures replies { (o : Opening) (mail client : ℕ) (answer : JobOutcome) (es : List CoreEvent)
        → IsCoreRun o (At mail (Reply client answer) ∷ es)
        → HasJobOut (queue_of mail es) (reply_for mail client es) (worker_of mail es) client }
{}
