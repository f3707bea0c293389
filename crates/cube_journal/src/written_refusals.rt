//! Refusals as they are written, one of each number.

ghost use Rattle.std.specs.Prelude.{◌≡◌, codes};
ghost use Rattle.cube_language.specs.declared.bad_row.BadRow.TheVariants.{WrongCount, Column};
ghost use Rattle.cube_language.specs.declared.bad_row.Reason.TheVariants.{OutOfRange};
ghost use Rattle.cube_language.specs.declared.cubes_fault.SchemaFault.TheVariants.{NoMetric, RangeTooLarge};
ghost use Rattle.cube_language.specs.declared.statement.Item.TheVariants.{Plain, Min, Avg};
ghost use Rattle.cube_journal.specs.declared.refusal.Refusal.TheVariants.{Syntax, UnknownCube, UnknownColumn, WrongKind, NotGrouped, CutsBrick, BadRow, NoSuchFile, FileTooLong, TooManyRejected, ReadFault, TransactionOpen, NoTransaction, TransactionAborted, DictionaryFull, NoMemory, StoreFailed, ShardFull, CubeExists, BadCube, TooManyCubes, ReadOnly, WatchOpen, NoWatch, NotWatchable, NotAnItem, BadHaving, NoSuchOpen, NoSuchEntry, TooManyOpen, Spent};
ghost use Rattle.cube_journal.specs.Refusals.{refusal_text};

/// Each refusal as it is written, with its number.
pub fn refusals_as_written()
    ensures syntax { refusal_text (Syntax (record { at = 12 })) ≡ codes "1 Syntax at 12" }
    ensures unknown_cube { refusal_text (UnknownCube (codes "w")) ≡ codes "2 UnknownCube w" }
    ensures unknown_column { refusal_text (UnknownColumn (codes "n")) ≡ codes "3 UnknownColumn n" }
    ensures wrong_kind { refusal_text (WrongKind (codes "n")) ≡ codes "4 WrongKind n" }
    ensures not_grouped { refusal_text (NotGrouped (codes "n")) ≡ codes "5 NotGrouped n" }
    ensures cuts_brick { refusal_text (CutsBrick (codes "x")) ≡ codes "6 CutsBrick x" }
    ensures bad_value { refusal_text (BadRow 1 (Column (codes "x") OutOfRange))
        ≡ codes "7 BadRow row 1 column x OutOfRange" }
    ensures bad_count { refusal_text (BadRow 1 (WrongCount 1))
        ≡ codes "7 BadRow row 1 values 1 WrongCount" }
    ensures no_such_file { refusal_text (NoSuchFile) ≡ codes "8 NoSuchFile" }
    ensures file_too_long { refusal_text (FileTooLong 7) ≡ codes "9 FileTooLong 7" }
    ensures too_many_rejected { refusal_text (TooManyRejected 3 2)
        ≡ codes "10 TooManyRejected 3 allowed 2" }
    ensures read_fault { refusal_text (ReadFault) ≡ codes "11 ReadFault" }
    ensures transaction_open { refusal_text (TransactionOpen) ≡ codes "12 TransactionOpen" }
    ensures no_transaction { refusal_text (NoTransaction) ≡ codes "13 NoTransaction" }
    ensures transaction_aborted { refusal_text (TransactionAborted)
        ≡ codes "14 TransactionAborted" }
    ensures dictionary_full { refusal_text (DictionaryFull (codes "A'B"))
        ≡ codes "15 DictionaryFull 'A''B'" }
    ensures no_memory { refusal_text (NoMemory) ≡ codes "16 NoMemory" }
    ensures store_failed { refusal_text (StoreFailed) ≡ codes "17 StoreFailed" }
    ensures shard_full { refusal_text (ShardFull 4 5) ≡ codes "18 ShardFull 4 rows 5" }
    ensures cube_exists { refusal_text (CubeExists (codes "u")) ≡ codes "19 CubeExists u" }
    ensures bad_cube { refusal_text (BadCube NoMetric) ≡ codes "20 BadCube NoMetric" }
    ensures bad_range { refusal_text (BadCube (RangeTooLarge (codes "x")))
        ≡ codes "20 BadCube RangeTooLarge x" }
    ensures too_many_cubes { refusal_text (TooManyCubes) ≡ codes "21 TooManyCubes" }
    ensures read_only { refusal_text (ReadOnly) ≡ codes "22 ReadOnly" }
    ensures watch_open { refusal_text (WatchOpen) ≡ codes "23 WatchOpen" }
    ensures no_watch { refusal_text (NoWatch) ≡ codes "24 NoWatch" }
    ensures not_watchable { refusal_text (NotWatchable (Min (codes "m")))
        ≡ codes "25 NotWatchable MIN(m)" }
    ensures not_an_item { refusal_text (NotAnItem (Plain (codes "x"))) ≡ codes "26 NotAnItem x" }
    ensures bad_having { refusal_text (BadHaving (Avg (codes "m"))) ≡ codes "27 BadHaving AVG(m)" }
    ensures no_such_open { refusal_text (NoSuchOpen 1) ≡ codes "28 NoSuchOpen 1" }
    ensures no_such_entry { refusal_text (NoSuchEntry) ≡ codes "29 NoSuchEntry" }
    ensures too_many_open { refusal_text (TooManyOpen) ≡ codes "30 TooManyOpen" }
    ensures spent { refusal_text (Spent 7) ≡ codes "31 Spent 7" }
{}
