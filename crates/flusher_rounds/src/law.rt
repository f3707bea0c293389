//! Laws of the flusher's rounds.

ghost use Rattle.std.specs.Prelude.{◌≡◌, ◌⊎◌, ℕ, ◌+◌, ◌<◌, ◌≤◌, max, Bool, true, false, List, ◌∷◌, ◌++◌, length, Some, None};
ghost use Rattle.cube_journal.specs.declared.counters.Counters.{Counters};
ghost use Rattle.cube_language.specs.declared.decl.Decl.{Decl};
ghost use Rattle.aosi_desk.specs.declared.answer.RoundAnswer.TheVariants.{Target, Nothing};
ghost use Rattle.aosi_desk.specs.declared.answer.RoundEnd.{RoundEnd};
ghost use Rattle.core_cells.specs.declared.desk.DeskAnswer.TheVariants as answer;
ghost use Rattle.core_cells.specs.declared.desk.DeskCall.TheVariants as call;
ghost use Rattle.core_cells.specs.declared.names.NamesAnswer.TheVariants as told;
ghost use Rattle.core_cells.specs.declared.names.NamesCall.{NamesCall};
ghost use Rattle.core_cells.specs.declared.names.NamesCall.TheVariants as names;
ghost use Rattle.core_events.specs.Clients.{ClientState, is_lost_to_disk, names_after_call, opening_client, state_from_calls};
ghost use Rattle.core_events.specs.Events.{Opening, ClientCall, CopyFrom, flusher};
ghost use Rattle.core_events.specs.Groups.{Copies, JobGroup, has_refusal, no_group};
ghost use Rattle.core_events.specs.Jobs.{CopyRound};
ghost use Rattle.cube_core.specs.DeskEvents.{FitsDeskCall};
ghost use Rattle.cube_core.specs.NamesEvents.{FitsNamesCall};
ghost use Rattle.cube_core.specs.GroupEnds.{HasAllAnswers, MayBeginBy};
ghost use Rattle.cube_core.specs.HoldStates.{ComesTo, after_desk_call};
ghost use Rattle.flusher_rounds.specs.RoundStates.{HasCopiedCubes, HasCopiedRows, HasLostStore, HasNoRound, HasRound, HasRoundCopies, IsBetweenRounds, IsInRound, LacksRows, after_names_call, round_up_to};

/// The flusher begins with no round. It may then ask for one, and either has the round up to a
/// target or learns that all up to an epoch is safe. Once it has lost the store it may ask for none.
pub fn rounds_open()
    ensures begins { (o : Opening) → HasNoRound o (opening_client o) }
    ensures may_ask { (o : Opening) (k : ClientState) → HasNoRound o k
        → FitsDeskCall o (flusher o) call.RoundOpen k }
    ensures opened { (o : Opening) (from epoch : ℕ) (k : ClientState) → HasNoRound o k
        → ComesTo o (flusher o) call.RoundOpen (answer.Round (Target from epoch)) k
        (record k {
          group = no_group;
          lse = max k.lse from;
          shown = from ∷ k.shown;
          round = Some (round_up_to from epoch false);
        }) (HasRound o from epoch) }
    ensures nothing { (o : Opening) (epoch : ℕ) (k : ClientState) → HasNoRound o k
        → ComesTo o (flusher o) call.RoundOpen (answer.Round (Nothing epoch)) k
        (record k { group = no_group; lse = max k.lse epoch; shown = epoch ∷ k.shown })
        (HasNoRound o) }
    ensures no_more { (o : Opening) (k : ClientState) → HasLostStore o k
        → FitsDeskCall o (flusher o) call.RoundOpen k → ⊥ }
{}

/// In a round the flusher may ask a shard to copy its rows above the latest safe epoch, or all, up to
/// the target. Once each shard has answered it has them, or lacks some where one refused.
pub fn rounds_copy_rows()
    ensures may_copy { (o : Opening) (mail from epoch start : ℕ) (k : ClientState)
        → HasRound o from epoch k → (start ≡ from) ⊎ (start ≡ 0)
        → MayBeginBy o (flusher o) mail (CopyRound start epoch) k }
    ensures copied { (o : Opening) (from epoch start : ℕ) (k : ClientState) (g : JobGroup)
        → HasRound o from epoch k → HasAllAnswers o.shards (Copies start epoch) g
        → has_refusal g.answers ≡ false
        → HasCopiedRows o from epoch start (record k { group = g }) }
    ensures refused { (o : Opening) (from epoch start : ℕ) (k : ClientState) (g : JobGroup)
        → HasRound o from epoch k → HasAllAnswers o.shards (Copies start epoch) g
        → has_refusal g.answers ≡ true → LacksRows o from epoch (record k { group = g }) }
{}

/// With the rows of each shard the flusher may ask for the cubes from a place on, and never while
/// it lacks some. With the cubes it may ask for the names of each of their dimensions.
pub fn rounds_copy_cubes_and_names()
    ensures may_list { (o : Opening) (from epoch start place : ℕ) (has_cubes : Bool)
        (k : ClientState) → HasRoundCopies o from epoch start has_cubes k → place ≤ k.cubes
        → FitsDeskCall o (flusher o) (call.CubesFrom place) k }
    ensures listed { (o : Opening) (from epoch start place : ℕ) (has_cubes : Bool)
        (cubes : List Decl) (k : ClientState) → HasRoundCopies o from epoch start has_cubes k
        → ComesTo o (flusher o) (call.CubesFrom place) (answer.Cubes cubes) k
        (record k {
          round = Some (round_up_to from epoch true);
          cubes = max k.cubes (place + length cubes);
        }) (HasCopiedCubes o from epoch start) }
    ensures lacking { (o : Opening) (from epoch place : ℕ) (k : ClientState)
        → LacksRows o from epoch k → FitsDeskCall o (flusher o) (call.CubesFrom place) k → ⊥ }
    ensures may_name { (o : Opening) (from epoch start cube dim number : ℕ) (k : ClientState)
        → HasCopiedCubes o from epoch start k → cube < k.cubes → number ≤ k.names cube dim
        → FitsNamesCall o (flusher o) (names.CopyFrom cube dim number) k }
    ensures named { (o : Opening) (from epoch start cube dim number : ℕ) (copied : List (List ℕ))
        (k : ClientState) → HasCopiedCubes o from epoch start k
        → HasCopiedCubes o from epoch start
        (after_names_call o (names.CopyFrom cube dim number) (told.Copied copied) k) }
    ensures knows { (o : Opening) (cube dim number : ℕ) (copied : List (List ℕ)) (k : ClientState)
        → after_names_call o (names.CopyFrom cube dim number) (told.Copied copied) k
        ≡ record k { names = names_after_call (CopyFrom cube dim number copied) k.names } }
    ensures names { (o : Opening) (cube dim number : ℕ) (copied : List (List ℕ)) (k : ClientState)
        → number + length copied
        ≤ (after_names_call o (names.CopyFrom cube dim number) (told.Copied copied) k).names cube
        dim }
    ensures no_memory { (o : Opening) (c : NamesCall) (k : ClientState)
        → after_names_call o c told.NoMemory k ≡ k }
{}

/// However far it has come, the flusher may close its round, as safe or as lost. It then has no
/// round, and has lost the store where the disk failed, which it never forgets.
pub fn rounds_close()
    ensures may_close { (o : Opening) (from epoch : ℕ) (has_cubes : Bool) (end : RoundEnd)
        (k : ClientState) → IsInRound from epoch has_cubes k
        → FitsDeskCall o (flusher o) (call.RoundClose epoch end) k }
    ensures closed { (o : Opening) (from epoch : ℕ) (has_cubes : Bool) (end : RoundEnd)
        (k : ClientState) → IsInRound from epoch has_cubes k
        → ComesTo o (flusher o) (call.RoundClose epoch end) answer.Done k
        (record k { group = no_group; round = None; store_lost = is_lost_to_disk end })
        (IsBetweenRounds o (is_lost_to_disk end)) }
    ensures stays_lost { (o : Opening) (a : ℕ) (later calls : List ClientCall)
        → (state_from_calls o a calls).store_lost ≡ true
        → (state_from_calls o a (later ++ calls)).store_lost ≡ true }
{}

/// Between rounds the flusher may look at the counters, and at any time it may ask whether the
/// store has failed: it stays in its state.
pub fn the_flusher_looks()
    ensures counted { (o : Opening) (lost : Bool) (now : Counters) (k : ClientState)
        → IsBetweenRounds o lost k
        → ComesTo o (flusher o) call.Counters (answer.Counted now) k
        (record k { lse = max k.lse now.lse; shown = now.lse ∷ k.shown })
        (IsBetweenRounds o lost) }
    ensures may_ask_failed { (o : Opening) (k : ClientState)
        → FitsDeskCall o (flusher o) call.StoreFailed k }
    ensures asked_failed { (o : Opening) (failed : Bool) (k : ClientState)
        → after_desk_call o (flusher o) call.StoreFailed (answer.Failed failed) k ≡ k }
{}
