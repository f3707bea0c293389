//! Laws of a round that was copied, over every run of the core.

ghost use Rattle.std.specs.List.{AllByRecursion};
ghost use Rattle.std.specs.Prelude.{
  ◌++◌,
  ◌≡◌,
  ℕ,
  All,
  IsUtf8,
  List,
  None,
  true,
};
ghost use Rattle.aosi_desk.specs.Desks.{decl_names};
ghost use Rattle.copied_rows.specs.CopiedRows.{KeptAreCubeRows};
ghost use Rattle.core_events.specs.Cells.{desk_of, dictionary_of};
ghost use Rattle.core_events.specs.Clients.{client_state};
ghost use Rattle.core_events.specs.Events.{CoreEvent, Opening};
ghost use Rattle.core_events.specs.Fitting.{CanBeMade};
ghost use Rattle.core_events.specs.Runs.{IsCoreRun};
ghost use Rattle.core_serial.specs.Copies.{HasCopied, copies_by};
ghost use Rattle.core_records.specs.OpeningNames.{SuitsDimension};
ghost use Rattle.cube_language.specs.Cubes.{first_repeated};
ghost use Rattle.cube_language.specs.CubesText.{Declares};
ghost use Rattle.cube_language.specs.declared.decl.Decl.{Decl};
ghost use Rattle.cube_language.specs.declared.decl.DimDecl.{DimDecl};
ghost use Rattle.cube_rounds.specs.Bricks.{BrickPart};
ghost use Rattle.cube_rounds.specs.Demands.{
  AreNewNames,
  DimNames,
  FitsBrick,
  FitsRound,
  MayBeMade,
  coord_limits,
  names_with,
};
ghost use Rattle.cube_rounds.specs.Stands.{names_behind};
ghost use Rattle.cube_rounds.specs.declared.round.Round.{Round};
ghost use Rattle.following_rounds.specs.FollowingRounds.{
  HasNamesFor,
  HasStorableValues,
  IsCopiedPart,
  IsKeptAfter,
  IsRoundOfRun,
  IsStorableRound,
  OpensForRounds,
};

/// The cubes that a text declares can be made.
pub fn declared_cubes_can_be_made()
    ensures { (text : List ℕ) (cubes : List Decl) → Declares text cubes → All CanBeMade cubes }
{}

/// Cubes that the desk has behind others may be made behind them, where those with which the run
/// opens can be made and are named apart.
pub fn cubes_behind_others_may_be_made()
    ensures { (o : Opening) (es : List CoreEvent) (cubes made : List Decl) → IsCoreRun o es
        → All CanBeMade o.cubes → first_repeated (decl_names o.cubes) ≡ None
        → (desk_of o es).cubes ≡ cubes ++ made → MayBeMade cubes made }
{}

/// The names that a dictionary of texts has behind others are new, where they are UTF-8 and it
/// opened with names that suit its dimension.
pub fn names_behind_others_are_new()
    ensures { (o : Opening) (es : List CoreEvent) (cube dim : ℕ) (d : DimDecl)
        (earlier names : List (List ℕ)) → IsCoreRun o es → SuitsDimension d (o.names cube dim)
        → d.text ≡ true → (dictionary_of o cube dim es).names ≡ earlier ++ names
        → AllByRecursion IsUtf8 names → AreNewNames d.cardinality earlier names }
{}

/// What all shards have copied of a brick fits its cube, where there are no fewer names than there
/// were, and where a store has bytes for its values.
pub fn copied_bricks_fit_their_cubes()
    ensures { (o : Opening) (es : List CoreEvent) (client from epoch cube : ℕ) (decl : Decl)
        (earlier names : DimNames) (part : BrickPart) → IsCoreRun o es → KeptAreCubeRows o
        → HasCopied o.shards from epoch (client_state o client es).group
        → HasNamesFor o es cube decl earlier names
        → IsCopiedPart (copies_by o (client_state o client es).group.answers) cube part
        → AllByRecursion HasStorableValues part.rows
        → FitsBrick decl (coord_limits decl (names_with earlier names)) from epoch part }
{}

/// A round of a run fits behind what a store keeps of the run: its rows are those that all shards
/// had copied at one moment, its cubes and its names those behind the kept ones at moments since.
pub fn rounds_of_a_run_may_follow_what_is_kept()
    ensures { (o : Opening) (copied run : List CoreEvent) (client : ℕ) (cubes : List Decl)
        (names : List DimNames) (round : Round) → IsCoreRun o run
        → OpensForRounds o (desk_of o run).cubes → IsKeptAfter o copied cubes names
        → IsRoundOfRun o copied run client cubes names round → IsStorableRound round
        → FitsRound cubes names round }
{}

/// What a store keeps of a run is there later, and so is what it keeps with a round of the run: the
/// first of the desk's cubes, and the first names of each dictionary.
pub fn what_is_kept_stays_and_grows_by_rounds()
    ensures later { (o : Opening) (later es : List CoreEvent) (cubes : List Decl)
        (names : List DimNames) → IsKeptAfter o es cubes names
        → IsKeptAfter o (later ++ es) cubes names }
    ensures round { (o : Opening) (copied run : List CoreEvent) (client : ℕ) (cubes : List Decl)
        (names : List DimNames) (round : Round) → IsKeptAfter o copied cubes names
        → IsRoundOfRun o copied run client cubes names round
        → IsKeptAfter o run (cubes ++ round.made) (names_behind names round) }
{}
