//! Laws of what stays: a session's own snapshot by the calls for its holders, and these by the others.

ghost use Rattle.std.specs.Prelude.{ℕ, Option};
ghost use Rattle.cube_values.specs.declared.query.BoundQuery.{BoundQuery};
ghost use Rattle.cube_values.specs.declared.snapshot.Snapshot.{Snapshot};
ghost use Rattle.core_cells.specs.declared.desk.DeskAnswer.TheVariants as answer;
ghost use Rattle.core_cells.specs.declared.desk.DeskCall.TheVariants as call;
ghost use Rattle.core_events.specs.Clients.{ClientState, after_client_call};
ghost use Rattle.core_events.specs.Events.{Opening, ClientCall};
ghost use Rattle.core_events.specs.Groups.{Compares, JobGroup};
ghost use Rattle.cube_core.specs.GroupEnds.{HasAllAnswers};
ghost use Rattle.cube_core.specs.HoldStates.{IsReadyWith, IsUnderOwnNumber, after_desk_call};
ghost use Rattle.watch_holds.specs.HolderStates.{HasReaders, HeldReaders, IsHolderOf, LeadingReader, OneReader};

/// Whatever a session holds under its own number, it holds, and is ready, when a reader is opened or
/// closed under a holder's number, and when each shard has answered a delta.
pub fn holders_leave_the_own_snapshot()
    ensures opened { (o : Opening) (a number statement : ℕ) (s : Snapshot) (own : Option Snapshot)
        (k : ClientState) → IsHolderOf a number → IsReadyWith o a own k → IsReadyWith o a own
        (after_desk_call o a (call.OpenRead number statement) (answer.Opened s) k) }
    ensures closed { (o : Opening) (a number statement : ℕ) (own : Option Snapshot)
        (k : ClientState) → IsHolderOf a number → IsReadyWith o a own k → IsReadyWith o a own
        (after_desk_call o a (call.CloseRead number statement) answer.Done k) }
    ensures compared { (o : Opening) (a from to : ℕ) (query : BoundQuery) (own : Option Snapshot)
        (k : ClientState) (g : JobGroup) → IsReadyWith o a own k
        → HasAllAnswers o.shards (Compares query from to) g
        → IsReadyWith o a own (record k { group = g }) }
{}

/// A session's calls under its own number, its posts and its fetches leave its holders what they hold,
/// and so does each group. A leading reader is one reader.
pub fn own_calls_leave_the_holders()
    ensures calls { (o : Opening) (a : ℕ) (c : ClientCall) (readers : HeldReaders)
        (k : ClientState) → IsUnderOwnNumber a c → HasReaders a readers k
        → HasReaders a readers (after_client_call o a c k) }
    ensures groups { (a : ℕ) (readers : HeldReaders) (k : ClientState) (g : JobGroup)
        → HasReaders a readers k → HasReaders a readers (record k { group = g }) }
    ensures leading { (a number epoch : ℕ) (k : ClientState)
        → HasReaders a (LeadingReader number epoch) k → HasReaders a (OneReader number epoch) k }
{}
