//! Laws of a session's groups of jobs.

ghost use Rattle.std.specs.Prelude.{◌≡◌, ◌⊎◌, ℕ, ◌<◌, ◌≤◌, true, false, List, [], length, All, Option, Some};
ghost use Rattle.std.specs.List.{list_any};
ghost use Rattle.cube_journal.specs.declared.note.Note.TheVariants as note;
ghost use Rattle.cube_values.specs.declared.query.BoundQuery.{BoundQuery};
ghost use Rattle.cube_values.specs.declared.row.CodedRow.{CodedRow};
ghost use Rattle.cube_values.specs.declared.snapshot.Snapshot.{Snapshot};
ghost use Rattle.cube_values.specs.declared.span.Span.{Span};
ghost use Rattle.core_events.specs.Cells.{sizes_of_cube};
ghost use Rattle.core_events.specs.Clients.{ClientState, after_client_call};
ghost use Rattle.core_events.specs.Events.{Opening, Fetch, IsSession, Post};
ghost use Rattle.core_events.specs.Fitting.{CutsNoBrick, IsQueryOf, MayNote, MayPutRow};
ghost use Rattle.core_events.specs.Groups.{Asks, GroupKind, JobGroup, Purges, Received, RollsBack, has_all_below, has_ended, has_number, has_refusal, mails_of};
ghost use Rattle.core_events.specs.Jobs.{Append, Done, DropBox, Flush, JobOutcome, Purge, Rollback, Scan, StoreLost, is_refusal};
ghost use Rattle.cube_core.specs.GroupEnds.{HasAllAnswers, HasWritten, MayBeginBy, ReceivesInTurn, with_round_answer};
ghost use Rattle.cube_core.specs.HoldStates.{HasRolledBack, HasSpoiledWrite, IsReadyWith, IsWriting};

/// A session that is ready may ask a shard for the rows of a query that its own snapshot sees, be it a
/// reader or a writer. Once each shard has answered, or was out of memory, it is as before.
pub fn sessions_scan_their_shards()
    ensures may_scan { (o : Opening) (a mail : ℕ) (query : BoundQuery) (s : Snapshot)
        (k : ClientState) → IsSession o a → IsReadyWith o a (Some s) k → IsQueryOf o query k
        → MayBeginBy o a mail (Scan query s) k }
    ensures scanned { (o : Opening) (a : ℕ) (query : BoundQuery) (s : Snapshot)
        (own : Option Snapshot) (k : ClientState) (g : JobGroup) → IsReadyWith o a own k
        → HasAllAnswers o.shards (Asks query s) g → IsReadyWith o a own (record k { group = g }) }
{}

/// A session that is ready may have a shard purge up to an epoch that it was told of as LSE. Once each
/// shard has answered it is as before, and where none refused it may note a purge at that epoch, if the
/// desk has shown just that since its last entry.
pub fn sessions_purge_their_shards()
    ensures may_purge { (o : Opening) (a mail epoch : ℕ) (own : Option Snapshot) (k : ClientState)
        → IsSession o a → IsReadyWith o a own k → epoch ≤ k.lse
        → MayBeginBy o a mail (Purge epoch) k }
    ensures purged { (o : Opening) (a epoch : ℕ) (own : Option Snapshot) (k : ClientState)
        (g : JobGroup) → IsReadyWith o a own k → HasAllAnswers o.shards (Purges epoch) g
        → IsReadyWith o a own (record k { group = g }) }
    ensures may_note { (o : Opening) (a statement epoch : ℕ) (k : ClientState) (g : JobGroup)
        → HasAllAnswers o.shards (Purges epoch) g → has_refusal g.answers ≡ false
        → has_number k.shown epoch ≡ true
        → MayNote o a (note.Purged a statement epoch) (record k { group = g }) }
{}

/// A session that is ready may ask for a round. With its answer it is as before, and knows how the
/// round ended: it may note a round that was done, and refuse as 17 one that was lost to the disk.
pub fn sessions_ask_for_rounds()
    ensures may_ask { (o : Opening) (a mail : ℕ) (own : Option Snapshot) (k : ClientState)
        → IsSession o a → IsReadyWith o a own k → MayBeginBy o a mail Flush k }
    ensures learns { (o : Opening) (a mail : ℕ) (outcome : JobOutcome) (k : ClientState)
        → has_ended o.shards k.group ≡ true
        → after_client_call o a (Fetch mail outcome) (after_client_call o a (Post mail Flush) k)
        ≡ with_round_answer mail outcome k }
    ensures answered { (o : Opening) (a mail : ℕ) (outcome : JobOutcome) (own : Option Snapshot)
        (k : ClientState) → IsReadyWith o a own k
        → IsReadyWith o a own (with_round_answer mail outcome k) }
    ensures may_note { (o : Opening) (a mail statement : ℕ) (k : ClientState)
        → MayNote o a (note.Flushed a statement) (with_round_answer mail Done k) }
    ensures may_refuse { (o : Opening) (a mail statement : ℕ) (k : ClientState)
        → MayNote o a (note.Refused a statement 17) (with_round_answer mail StoreLost k) }
{}

/// A session that writes may put rows of a cube on a shard and delete those of a box, at its epoch. It
/// goes on to write where nothing was refused, and else has spoiled its write.
pub fn sessions_write_to_their_shards()
    ensures may_put { (o : Opening) (a mail cube : ℕ) (rows : List CodedRow) (s : Snapshot)
        (k : ClientState) → IsSession o a → IsWriting o a s k → cube < k.cubes
        → All (MayPutRow o cube mail k) rows → MayBeginBy o a mail (Append cube s.epoch rows) k }
    ensures may_delete { (o : Opening) (a mail cube : ℕ) (box : Span) (s : Snapshot)
        (k : ClientState) → IsSession o a → IsWriting o a s k → cube < k.cubes
        → length box.parts ≡ length (sizes_of_cube o cube) → CutsNoBrick o cube box
        → MayBeginBy o a mail (DropBox cube s.epoch box) k }
    ensures written { (o : Opening) (a : ℕ) (s : Snapshot) (k : ClientState) (kind : GroupKind)
        (g : JobGroup) → IsWriting o a s k → HasWritten o.shards kind g
        → has_refusal g.answers ≡ false → IsWriting o a s (record k { group = g }) }
    ensures spoiled { (o : Opening) (a : ℕ) (s : Snapshot) (k : ClientState) (kind : GroupKind)
        (g : JobGroup) → IsWriting o a s k → HasWritten o.shards kind g
        → has_refusal g.answers ≡ true → HasSpoiledWrite o a s (record k { group = g }) }
{}

/// A session that writes, or that has spoiled its write, may have a shard take back what it wrote. Once
/// each shard has answered, and none refused, it has rolled back.
pub fn sessions_roll_back_on_their_shards()
    ensures may_roll_back { (o : Opening) (a mail : ℕ) (s : Snapshot) (k : ClientState)
        → IsSession o a → IsWriting o a s k ⊎ HasSpoiledWrite o a s k
        → MayBeginBy o a mail (Rollback s.epoch) k }
    ensures rolled_back { (o : Opening) (a : ℕ) (s : Snapshot) (k : ClientState) (g : JobGroup)
        → IsWriting o a s k ⊎ HasSpoiledWrite o a s k → HasAllAnswers o.shards RollsBack g
        → has_refusal g.answers ≡ false → HasRolledBack o a s (record k { group = g }) }
{}

/// Outcomes that are received of one mail after the other, from mail 0 on, are answers of as many
/// mails, and there is a refusal among these where one of the outcomes is.
pub fn answers_come_in_turn()
    ensures all { (receive : ℕ → List JobOutcome → List Received → List Received)
        (outcomes : List JobOutcome) → ReceivesInTurn receive
        → has_all_below (length outcomes) (mails_of (receive 0 outcomes [])) ≡ true }
    ensures refused { (receive : ℕ → List JobOutcome → List Received → List Received)
        (outcomes : List JobOutcome) → ReceivesInTurn receive
        → has_refusal (receive 0 outcomes []) ≡ list_any is_refusal outcomes }
{}
