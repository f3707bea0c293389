//! Entries of a journal as they are written, one of each kind.

ghost use Rattle.std.specs.Prelude.{◌≡◌, [], ◌∷◌, codes};
ghost use Rattle.cube_journal.specs.declared.journal_entry.AbortCause.TheVariants.{Asked, EndOfScript, TooManyRejected, ReadFault, NoMemory, ShardFull};
ghost use Rattle.cube_journal.specs.declared.journal_entry.JournalEntry.TheVariants.{Begin, Read, ReadEnd, Committed, Aborted, Refused, Cleared, Show, Flushed, Purged, Cube, Round, Idle, Safe, RoundLost};
ghost use Rattle.cube_journal.specs.declared.journal_entry.LostCause.TheVariants.{Disk, Memory};
ghost use Rattle.cube_journal.specs.JournalLines.{entry_text, journal_text, end_text};

/// Each entry, and each cause, as it is written.
pub fn entries_as_written()
    ensures begin { entry_text (Begin 1 2 3 (1 ∷ 2 ∷ [])) ≡ codes "begin 1.2 epoch 3 deps [1,2]" }
    ensures begin_alone { entry_text (Begin 1 2 3 []) ≡ codes "begin 1.2 epoch 3 deps []" }
    ensures read { entry_text (Read 17 2 2) ≡ codes "read 17.2 epoch 2" }
    ensures read_end { entry_text (ReadEnd 1 2) ≡ codes "readend 1.2" }
    ensures committed { entry_text (Committed 1 2 3) ≡ codes "committed 1.2 epoch 3" }
    ensures asked { entry_text (Aborted 1 2 3 Asked) ≡ codes "aborted 1.2 epoch 3 Asked" }
    ensures end_of_script { entry_text (Aborted 1 2 3 EndOfScript)
        ≡ codes "aborted 1.2 epoch 3 EndOfScript" }
    ensures too_many_rejected { entry_text (Aborted 1 2 3 TooManyRejected)
        ≡ codes "aborted 1.2 epoch 3 TooManyRejected" }
    ensures read_fault { entry_text (Aborted 1 2 3 ReadFault)
        ≡ codes "aborted 1.2 epoch 3 ReadFault" }
    ensures no_memory { entry_text (Aborted 1 2 3 NoMemory) ≡ codes "aborted 1.2 epoch 3 NoMemory" }
    ensures shard_full { entry_text (Aborted 1 2 3 (ShardFull 4 5))
        ≡ codes "aborted 1.2 epoch 3 ShardFull 4 rows 5" }
    ensures refused { entry_text (Refused 1 2 7) ≡ codes "refused 1.2 code 7" }
    ensures cleared { entry_text (Cleared 1 2) ≡ codes "cleared 1.2" }
    ensures show { entry_text (Show 1 2) ≡ codes "show 1.2" }
    ensures flushed { entry_text (Flushed 1 2) ≡ codes "flushed 1.2" }
    ensures purged { entry_text (Purged 1 2 6) ≡ codes "purged 1.2 epoch 6" }
    ensures cube { entry_text (Cube 1 2 3) ≡ codes "cube 1.2 epoch 3" }
    ensures round { entry_text (Round 6) ≡ codes "round 6" }
    ensures idle { entry_text (Idle 6) ≡ codes "idle 6" }
    ensures safe { entry_text (Safe 6) ≡ codes "safe 6" }
    ensures lost_to_disk { entry_text (RoundLost 6 Disk) ≡ codes "lost 6 disk" }
    ensures lost_to_memory { entry_text (RoundLost 6 Memory) ≡ codes "lost 6 memory" }
{}

/// A journal and a closing line as they are written.
pub fn journal_as_written()
    ensures journal { journal_text (Begin 1 1 1 [] ∷ Committed 1 1 1 ∷ [])
        ≡ codes "journal 2\nbegin 1.1 epoch 1 deps []\ncommitted 1.1 epoch 1\n" }
    ensures end { end_text (record { ec = 2; lce = 1; lse = 0; pending = [] })
        ≡ codes "end ec 2 lce 1 lse 0\n" }
{}
