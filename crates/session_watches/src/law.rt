//! Laws of what a session knows of its holders.

ghost use Rattle.std.specs.Prelude.{◌≡◌, ℕ, List, [], ◌∷◌, ◌++◌};
ghost use Rattle.core_program.specs.ClientCalls.{desk_entry, names_entry};
ghost use Rattle.core_cells.specs.declared.desk.DeskAnswer.{DeskAnswer};
ghost use Rattle.core_cells.specs.declared.desk.DeskCall.{DeskCall};
ghost use Rattle.core_cells.specs.declared.names.NamesAnswer.{NamesAnswer};
ghost use Rattle.core_cells.specs.declared.names.NamesCall.{NamesCall};
ghost use Rattle.core_program.specs.Knowing.{IsClientOf};
ghost use Rattle.core_program.specs.CoreFits.{CoreEntry};
ghost use Rattle.cube_core.specs.declared.cell.CoreCell.{CoreCell};
ghost use Rattle.cube_core.specs.declared.jobs.JobAnswer.{JobAnswer};
ghost use Rattle.cube_core.specs.declared.shard.ShardCall.{ShardCall};
ghost use Rattle.job_groups.specs.AskedEach.{HasMore};
ghost use Rattle.job_groups.specs.AskedSome.{LearnsOfSome};
ghost use Rattle.job_groups.specs.EachPosted.{LearnsOfEach};
ghost use Rattle.session_watches.specs.KnownReaders.{HoldersHave, HoldersKeep, IsOfOwnNumber};
ghost use Rattle.watch_holds.specs.HolderStates.{LeadingReader, NoReader, OneReader};

use cube_core::LinkedShard;

/// Before a session's first call its holders hold no reader. A leading reader is one reader.
pub fn holders_begin_with_no_reader<S: LinkedShard>()
    ensures none { (cells : List (CoreCell S)) (caller session : ℕ)
        → HoldersHave S.fits S.stands S.says cells caller session [] NoReader }
    ensures leading { (cells : List (CoreCell S)) (caller session number epoch : ℕ)
        (own : List CoreEntry)
        → HoldersHave S.fits S.stands S.says cells caller session own (LeadingReader number epoch)
        → HoldersHave S.fits S.stands S.says cells caller session own (OneReader number epoch) }
{}

/// Whatever a session's holders held, they hold after a call on the desk under its own number, after a
/// call on the names, and after a group of jobs on each shard or on some.
pub fn own_calls_keep_the_holders<S: LinkedShard>()
    ensures desk { (cells : List (CoreCell S)) (caller session : ℕ) (own now : List CoreEntry)
        (c : DeskCall) (said : DeskAnswer)
        → IsClientOf S.fits S.stands S.says cells caller session → IsOfOwnNumber session c
        → now ≡ own ++ desk_entry caller c said ∷ []
        → HoldersKeep S.fits S.stands S.says session cells caller own cells caller now }
    ensures names { (cells : List (CoreCell S)) (caller session : ℕ) (own now : List CoreEntry)
        (c : NamesCall) (said : NamesAnswer)
        → IsClientOf S.fits S.stands S.says cells caller session
        → now ≡ own ++ names_entry caller c said ∷ []
        → HoldersKeep S.fits S.stands S.says session cells caller own cells caller now }
    ensures each { (cells : List (CoreCell S)) (caller session : ℕ) (own now : List CoreEntry)
        (calls : List ShardCall) (answers : List JobAnswer) → HasMore own now
        → LearnsOfEach S.fits S.stands S.says cells caller session calls answers own now
        → HoldersKeep S.fits S.stands S.says session cells caller own cells caller now }
    ensures some { (cells : List (CoreCell S)) (caller session : ℕ) (own now : List CoreEntry)
        (numbers : List ℕ) (calls : List ShardCall) (answers : List JobAnswer) → HasMore own now
        → LearnsOfSome S.fits S.stands S.says cells caller session numbers calls answers own now
        → HoldersKeep S.fits S.stands S.says session cells caller own cells caller now }
{}
