//! Laws of a session's calls for its holders.

ghost use Rattle.std.specs.Prelude.{ℕ, Option};
ghost use Rattle.cube_values.specs.declared.query.BoundQuery.{BoundQuery};
ghost use Rattle.cube_values.specs.declared.snapshot.Snapshot.{Snapshot};
ghost use Rattle.core_cells.specs.declared.desk.DeskAnswer.TheVariants as answer;
ghost use Rattle.core_cells.specs.declared.desk.DeskCall.TheVariants as call;
ghost use Rattle.core_events.specs.Clients.{ClientState, opening_client, reader_up_to};
ghost use Rattle.core_events.specs.Events.{Opening, IsSession};
ghost use Rattle.core_events.specs.Fitting.{IsQueryOf};
ghost use Rattle.core_events.specs.Jobs.{Delta, Scan};
ghost use Rattle.cube_core.specs.DeskEvents.{FitsDeskCall};
ghost use Rattle.cube_core.specs.GroupEnds.{MayBeginBy};
ghost use Rattle.cube_core.specs.HoldStates.{IsReadyWith, after_desk_call};
ghost use Rattle.watch_holds.specs.HolderStates.{HasReaderUnder, HasReaders, HeldReaders, IsFreeBeside, IsHolderOf, LeadingReader, NoReader, OneReader, TwoReaders, readers_with};

/// A session's holders begin with no reader. A session that is ready may open one under a holder's
/// number that is free: the first reader leads, and a second one stands behind the first.
pub fn holders_open_readers()
    ensures begins { (o : Opening) (a : ℕ) → HasReaders a NoReader (opening_client o) }
    ensures may_open { (o : Opening) (a number statement : ℕ) (own : Option Snapshot)
        (readers : HeldReaders) (k : ClientState) → IsSession o a → IsReadyWith o a own k
        → HasReaders a readers k → IsHolderOf a number → IsFreeBeside number readers
        → FitsDeskCall o a (call.OpenRead number statement) k }
    ensures opened { (o : Opening) (a number statement : ℕ) (s : Snapshot) (readers : HeldReaders)
        (k : ClientState) → HasReaders a readers k → IsHolderOf a number
        → IsFreeBeside number readers
        → HasReaders a (readers_with number s.epoch readers)
        (after_desk_call o a (call.OpenRead number statement) (answer.Opened s) k) }
{}

/// A session that is ready may close a reader that one of its holders holds. The last one gone, there
/// is none; of two, the other is left, and leads no more once it is the newer.
pub fn holders_close_readers()
    ensures may_close { (o : Opening) (a number statement : ℕ) (own : Option Snapshot)
        (readers : HeldReaders) (k : ClientState) → IsSession o a → IsReadyWith o a own k
        → HasReaders a readers k → HasReaderUnder number readers
        → FitsDeskCall o a (call.CloseRead number statement) k }
    ensures last { (o : Opening) (a number statement epoch : ℕ) (k : ClientState)
        → HasReaders a (OneReader number epoch) k → HasReaders a NoReader
        (after_desk_call o a (call.CloseRead number statement) answer.Done k) }
    ensures older { (o : Opening) (a older from newer to statement : ℕ) (k : ClientState)
        → HasReaders a (TwoReaders older from newer to) k → HasReaders a (OneReader newer to)
        (after_desk_call o a (call.CloseRead older statement) answer.Done k) }
    ensures newer { (o : Opening) (a older from newer to statement : ℕ) (k : ClientState)
        → HasReaders a (TwoReaders older from newer to) k → HasReaders a (OneReader older from)
        (after_desk_call o a (call.CloseRead newer statement) answer.Done k) }
{}

/// A session that is ready may ask a shard for the rows of a query that its leading reader sees, and,
/// where it holds two readers, for the rows that came and went from the older to the newer.
pub fn holders_ask_their_shards()
    ensures may_scan { (o : Opening) (a mail number epoch : ℕ) (query : BoundQuery)
        (own : Option Snapshot) (k : ClientState) → IsSession o a → IsReadyWith o a own k
        → HasReaders a (LeadingReader number epoch) k → IsQueryOf o query k
        → MayBeginBy o a mail (Scan query (reader_up_to epoch)) k }
    ensures may_compare { (o : Opening) (a mail older from newer to : ℕ) (query : BoundQuery)
        (own : Option Snapshot) (k : ClientState) → IsSession o a → IsReadyWith o a own k
        → HasReaders a (TwoReaders older from newer to) k → IsQueryOf o query k
        → MayBeginBy o a mail (Delta query from to) k }
{}
