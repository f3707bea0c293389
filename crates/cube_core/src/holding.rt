//! Laws of a session's calls on the desk and the names.

ghost use Rattle.std.specs.Prelude.{◌≡◌, ℕ, ◌+◌, ◌<◌, ◌≤◌, max, List, [], ◌∷◌, ◌++◌, Option, Some, None};
ghost use Rattle.cube_journal.specs.declared.counters.Counters.{Counters};
ghost use Rattle.cube_journal.specs.declared.journal_entry.AbortCause.{AbortCause};
ghost use Rattle.cube_journal.specs.declared.note.Note.{Note};
ghost use Rattle.cube_language.specs.declared.decl.Decl.{Decl};
ghost use Rattle.cube_values.specs.declared.query.BoundQuery.{BoundQuery};
ghost use Rattle.cube_values.specs.declared.row.CodedRow.{CodedRow};
ghost use Rattle.cube_values.specs.declared.snapshot.Snapshot.{Snapshot};
ghost use Rattle.names_dict.specs.declared.code.Code.{Code};
ghost use Rattle.aosi_desk.specs.declared.cube.CubeAnswer.{CubeAnswer};
ghost use Rattle.aosi_desk.specs.declared.cube.CubeFound.TheVariants.{Found, Unknown};
ghost use Rattle.core_cells.specs.declared.desk.DeskAnswer.TheVariants as answer;
ghost use Rattle.core_cells.specs.declared.desk.DeskCall.{DeskCall};
ghost use Rattle.core_cells.specs.declared.desk.DeskCall.TheVariants as call;
ghost use Rattle.core_cells.specs.declared.names.NamesAnswer.{NamesAnswer};
ghost use Rattle.core_cells.specs.declared.names.NamesCall.{NamesCall};
ghost use Rattle.core_events.specs.Clients.{ClientState, after_client_call, cubes_by_answer, greater_of, holds_with, holds_without, number_by_code, opening_client, reader_up_to, state_from_calls, writer_at};
ghost use Rattle.core_events.specs.Events.{Opening, ClientCall, Encode, IsSession, OnNames};
ghost use Rattle.core_events.specs.Fitting.{CanBeMade, IsQueryOf, MayNote, MayPutRow};
ghost use Rattle.cube_core.specs.DeskEvents.{FitsDeskCall};
ghost use Rattle.cube_core.specs.NamesEvents.{names_event};
ghost use Rattle.cube_core.specs.HoldStates.{ComesTo, EndsOwn, HasRolledBack, IsIdle, IsReading, IsReadyWith, IsUnderOwnNumber, IsWriting, after_desk_call, with_own_entry};

/// A session begins idle. An idle one opens a writer, or a reader under its own number, and then holds
/// just that. A call that is answered out of memory changes nothing.
pub fn sessions_open_snapshots()
    ensures begins { (o : Opening) (a : ℕ) → IsIdle o a (opening_client o) }
    ensures may_write { (o : Opening) (a statement : ℕ) (k : ClientState) → IsSession o a
        → IsIdle o a k → FitsDeskCall o a (call.OpenWrite a statement) k }
    ensures may_read { (o : Opening) (a statement : ℕ) (k : ClientState) → IsSession o a
        → IsIdle o a k → FitsDeskCall o a (call.OpenRead a statement) k }
    ensures writes { (o : Opening) (a statement : ℕ) (s : Snapshot) (k : ClientState)
        → IsIdle o a k → ComesTo o a (call.OpenWrite a statement) (answer.Opened s) k
        (with_own_entry (holds_with a (writer_at s.epoch s.deps) k.holds) k)
        (IsWriting o a (writer_at s.epoch s.deps)) }
    ensures reads { (o : Opening) (a statement : ℕ) (s : Snapshot) (k : ClientState)
        → IsIdle o a k → ComesTo o a (call.OpenRead a statement) (answer.Opened s) k
        (with_own_entry (holds_with a (reader_up_to s.epoch) k.holds) k)
        (IsReading o a (reader_up_to s.epoch)) }
    ensures no_memory { (o : Opening) (a : ℕ) (c : DeskCall) (k : ClientState)
        → after_desk_call o a c answer.NoMemory k ≡ k }
{}

/// A session that writes may commit, one that reads may close its reader, and one that has rolled back
/// may end its writer. It is then idle.
pub fn sessions_end_snapshots()
    ensures commit { (o : Opening) (a statement : ℕ) (s : Snapshot) (k : ClientState)
        → IsSession o a → IsWriting o a s k → EndsOwn o a (call.Commit a statement) k }
    ensures close { (o : Opening) (a statement : ℕ) (s : Snapshot) (k : ClientState)
        → IsSession o a → IsReading o a s k → EndsOwn o a (call.CloseRead a statement) k }
    ensures abort { (o : Opening) (a statement : ℕ) (cause : AbortCause) (s : Snapshot)
        (k : ClientState) → IsSession o a → HasRolledBack o a s k
        → EndsOwn o a (call.AbortEnd a statement cause) k }
{}

/// Whatever it holds, a session that is ready may look for a cube, leave a note and ask for the
/// counters, and it stays ready, as it does when it asks for names. An idle one may make a cube.
pub fn sessions_look_and_note()
    ensures may_find { (o : Opening) (a statement : ℕ) (name : List ℕ) (own : Option Snapshot)
        (k : ClientState) → IsSession o a → IsReadyWith o a own k
        → FitsDeskCall o a (call.FindCube a statement name) k }
    ensures found { (o : Opening) (a statement place : ℕ) (name : List ℕ) (decl : Decl)
        (own : Option Snapshot) (k : ClientState) → IsReadyWith o a own k
        → ComesTo o a (call.FindCube a statement name) (answer.Found (Found place decl)) k
        (record k { cubes = max k.cubes (place + 1) }) (IsReadyWith o a own) }
    ensures unknown { (o : Opening) (a statement : ℕ) (name : List ℕ) (own : Option Snapshot)
        (k : ClientState) → IsReadyWith o a own k
        → ComesTo o a (call.FindCube a statement name) (answer.Found Unknown) k
        (with_own_entry k.holds k) (IsReadyWith o a own) }
    ensures may_create { (o : Opening) (a statement : ℕ) (decl : Decl) (k : ClientState)
        → IsSession o a → IsIdle o a k → CanBeMade decl
        → FitsDeskCall o a (call.CreateCube a statement decl) k }
    ensures created { (o : Opening) (a statement : ℕ) (decl : Decl) (made : CubeAnswer)
        (k : ClientState) → IsIdle o a k
        → ComesTo o a (call.CreateCube a statement decl) (answer.Created made) k
        (record (with_own_entry k.holds k) { cubes = greater_of (cubes_by_answer made) k.cubes })
        (IsIdle o a) }
    ensures may_note { (o : Opening) (a : ℕ) (note : Note) (own : Option Snapshot) (k : ClientState)
        → IsSession o a → IsReadyWith o a own k → MayNote o a note k
        → FitsDeskCall o a (call.Note note) k }
    ensures noted { (o : Opening) (a : ℕ) (note : Note) (now : Counters) (own : Option Snapshot)
        (k : ClientState) → IsReadyWith o a own k
        → ComesTo o a (call.Note note) (answer.Counted now) k
        (record (with_own_entry k.holds k) { lse = max k.lse now.lse; shown = now.lse ∷ [] })
        (IsReadyWith o a own) }
    ensures may_count { (o : Opening) (a : ℕ) (k : ClientState) → FitsDeskCall o a call.Counters k }
    ensures counted { (o : Opening) (a : ℕ) (now : Counters) (own : Option Snapshot)
        (k : ClientState) → IsReadyWith o a own k
        → ComesTo o a call.Counters (answer.Counted now) k
        (record k { lse = max k.lse now.lse; shown = now.lse ∷ k.shown }) (IsReadyWith o a own) }
    ensures named { (o : Opening) (a : ℕ) (c : NamesCall) (said : NamesAnswer)
        (own : Option Snapshot) (k : ClientState) → IsReadyWith o a own k
        → IsReadyWith o a own (after_client_call o a (names_event c said) k) }
{}

/// What a session is told it knows from then on: by no call does it know of fewer cubes or names, so a
/// row that it may put and a query that it may ask stay so. By calls under its own number its holders
/// keep what they hold.
pub fn sessions_keep_what_they_know()
    ensures cube { (o : Opening) (a statement place : ℕ) (name : List ℕ) (decl : Decl)
        (k : ClientState) → place < (after_desk_call o a (call.FindCube a statement name)
        (answer.Found (Found place decl)) k).cubes }
    ensures cubes { (o : Opening) (a : ℕ) (later calls : List ClientCall)
        → (state_from_calls o a calls).cubes ≤ (state_from_calls o a (later ++ calls)).cubes }
    ensures name { (o : Opening) (a cube dim number : ℕ) (name : List ℕ) (code : Code)
        (k : ClientState) → number_by_code code ≡ Some number
        → number < (after_client_call o a (OnNames (Encode cube dim name code)) k).names cube dim }
    ensures names { (o : Opening) (a cube dim : ℕ) (later calls : List ClientCall)
        → (state_from_calls o a calls).names cube dim
        ≤ (state_from_calls o a (later ++ calls)).names cube dim }
    ensures row { (o : Opening) (a cube shard : ℕ) (row : CodedRow) (later calls : List ClientCall)
        → MayPutRow o cube shard (state_from_calls o a calls) row
        → MayPutRow o cube shard (state_from_calls o a (later ++ calls)) row }
    ensures query { (o : Opening) (a : ℕ) (query : BoundQuery) (later calls : List ClientCall)
        → IsQueryOf o query (state_from_calls o a calls)
        → IsQueryOf o query (state_from_calls o a (later ++ calls)) }
    ensures holders { (o : Opening) (a : ℕ) (c : ClientCall) (k : ClientState)
        → IsUnderOwnNumber a c
        → holds_without a (after_client_call o a c k).holds ≡ holds_without a k.holds }
{}
