//! What follows from the definitions, for whoever reasons with them.

ghost use Rattle.std.specs.Prelude.{◌≡◌, ◌≤◌, ℕ, List, [], length, take, All, Some, slice_get, slice_index_or};
ghost use Rattle.cube_values.specs.declared.snapshot.Snapshot.{Snapshot};
ghost use Rattle.cube_language.specs.declared.decl.Decl.{Decl};
ghost use Rattle.cube_language.specs.CubesText.{Declares};
ghost use Rattle.cube_schema.specs.Schemas.{cube_of};
ghost use Rattle.cube_rounds.specs.declared.round.Round.{Round};
ghost use Rattle.cube_rounds.specs.Demands.{DimNames, FitsRound};
ghost use Rattle.cube_rounds.specs.KeptRows.{parts_of_brick, kept_rows_of_brick};
ghost use Rattle.cube_rounds.specs.Stands.{Kept, kept_of_cubes, kept_with, FileStands, Stands};
ghost use Rattle.names_dict.specs.Dictionaries.{number_of, dictionaries_of, dictionary_at, dictionary_for, name_at, names_of, IsSoundDictionary};
ghost use Rattle.kept_data.specs.KeptDicts.{dictionaries_with_names};
ghost use Rattle.kept_data.specs.KeptFiles.{IsKeptByFile};
ghost use Rattle.kept_data.specs.KeptNames.{HaveKeptNames};
ghost use Rattle.kept_data.specs.KeptRounds.{IsKeptBrick, IsKeptRow};
ghost use Rattle.kept_data.specs.SoundKept.{IsSoundKept, HasSoundRounds, IsCubeAt};

/// What a file keeps has sound cubes and names; its first cubes and its rounds are those of the file, and up to
/// epoch 0 there is nothing but cubes. Kept by a file is what a file, or one of two, stands for, the cubes of a text
/// without rounds, and what is kept with one round more that may follow.
pub fn kept_data_are_sound()
    ensures sound { (kept : Kept) → IsKeptByFile kept → IsSoundKept kept }
    ensures header { (kept : Kept) (by : IsKeptByFile kept)
        → by.cubes ≡ take kept.declared kept.cubes }
    ensures rounds { (kept : Kept) (by : IsKeptByFile kept) → by.rounds ≡ kept.rounds }
    ensures begun { (kept : Kept) → IsKeptByFile kept → kept.epoch ≡ 0
        → kept ≡ kept_of_cubes kept.cubes }
    ensures stands { (digest : List ℕ → List ℕ) (generation : ℕ) (kept : Kept) (file : List ℕ)
        → FileStands digest generation kept file → IsKeptByFile kept }
    ensures either { (digest : List ℕ → List ℕ) (kept : Kept) (first second : List ℕ)
        → Stands digest kept first second → IsKeptByFile kept }
    ensures declared { (text : List ℕ) (cubes : List Decl) → Declares text cubes
        → IsKeptByFile (kept_of_cubes cubes) }
    ensures round { (kept : Kept) (round : Round) → IsKeptByFile kept → round.from ≡ kept.epoch
        → FitsRound kept.cubes kept.names round → IsKeptByFile (kept_with kept round) }
{}

/// The rounds that a file keeps lead to its epoch, and what they have lies in the cubes. The entries of a brick,
/// joined, are a vector over its rows, and each row, so also each that a snapshot sees, is one of the brick with
/// kept names. Past the cubes the rounds have nothing.
pub fn kept_rounds_lie_in_their_cubes()
    ensures rounds { (kept : Kept) → IsKeptByFile kept → HasSoundRounds kept }
    ensures bricks { (kept : Kept) (place brick : ℕ) (cube : Decl) (lists : DimNames)
        → IsKeptByFile kept → IsCubeAt kept place cube lists
        → IsKeptBrick cube lists brick kept.epoch (parts_of_brick place brick kept.rounds) }
    ensures rows { (s : Snapshot) (kept : Kept) (place brick : ℕ) (cube : Decl) (lists : DimNames)
        → IsKeptByFile kept → IsCubeAt kept place cube lists
        → All (IsKeptRow cube lists brick) (kept_rows_of_brick s place brick kept.rounds) }
    ensures none { (kept : Kept) (place brick : ℕ) → IsKeptByFile kept → length kept.cubes ≤ place
        → parts_of_brick place brick kept.rounds ≡ [] }
{}

/// Dictionaries with the kept names have these names and no others, are sound, and find each name by its
/// place as its number. Those of each cube are made, and past the cubes there are none.
pub fn kept_names_are_found()
    ensures names { (cubes : List Decl) (names : List DimNames) → HaveKeptNames cubes names
        → names_of (dictionaries_with_names cubes names) ≡ names }
    ensures each { (cubes : List Decl) (names : List DimNames) (cube dim : ℕ)
        → HaveKeptNames cubes names
        → (dictionary_at (dictionaries_with_names cubes names) cube dim).names
        ≡ slice_index_or (slice_index_or names cube []) dim [] }
    ensures sound { (cubes : List Decl) (names : List DimNames) (cube dim : ℕ)
        → HaveKeptNames cubes names
        → IsSoundDictionary (dictionary_at (dictionaries_with_names cubes names) cube dim) }
    ensures found { (cubes : List Decl) (names : List DimNames) (cube dim n : ℕ) (name : List ℕ)
        → HaveKeptNames cubes names
        → name_at (dictionaries_with_names cubes names) cube dim n ≡ Some name
        → number_of (dictionary_at (dictionaries_with_names cubes names) cube dim) name ≡ Some n }
    ensures made { (cubes : List Decl) (names : List DimNames) (place dim : ℕ) (cube : Decl)
        → HaveKeptNames cubes names → slice_get cubes place ≡ Some cube
        → dictionary_for (cube_of cube) (dictionaries_with_names cubes names) place dim
        ≡ dictionary_at (dictionaries_with_names cubes names) place dim }
    ensures none { (cubes : List Decl) (names : List DimNames) (place : ℕ)
        → HaveKeptNames cubes names → length cubes ≤ place
        → dictionaries_of (dictionaries_with_names cubes names) place ≡ [] }
{}
