//! What follows from the definitions, for whoever reasons with them.

ghost use Rattle.std.specs.Prelude.{◌≡◌, ℕ, List, [], ◌∷◌, ◌++◌};
ghost use Rattle.cube_journal.specs.declared.journal_entry.JournalEntry.{JournalEntry};
ghost use Rattle.cube_journal.specs.Counters.{journal_state, state_after};
ghost use Rattle.cube_journal.specs.Legal.{CountersAllow, CountersAllowAll};
ghost use Rattle.cube_journal.specs.Order.{IsInOrder};

/// A journal with one more entry has come to what the entry makes of the state before, and it is legal
/// by its counters where it was before and the entry is allowed.
pub fn one_more_entry()
    ensures state { (safe : ℕ) (journal : List JournalEntry) (e : JournalEntry)
        → journal_state safe (journal ++ e ∷ []) ≡ state_after (journal_state safe journal) e }
    ensures legal { (safe : ℕ) (journal : List JournalEntry) (e : JournalEntry)
        → CountersAllowAll safe [] journal → CountersAllow safe journal e
        → CountersAllowAll safe [] (journal ++ e ∷ []) }
{}

/// In a legal journal EC is above LCE, bounds never fall in the order of opening and lie between LSE and
/// LCE, and a snapshot is admissible for an epoch exactly where the epoch is not above its bound.
pub fn legal_journals_are_in_order()
    ensures { (safe : ℕ) (journal : List JournalEntry)
        → CountersAllowAll safe [] journal → IsInOrder (journal_state safe journal) }
{}
