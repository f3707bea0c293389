//! Laws over every list of events: what a client knows, and what becomes of names.

ghost use Rattle.std.specs.Prelude.{◌≡◌, ℕ, ◌≤◌, List, ◌∷◌, ◌++◌, length, slice_get, Some};
ghost use Rattle.names_dict.specs.declared.code.Code.{Code};
ghost use Rattle.core_events.specs.Cells.{dictionary_of};
ghost use Rattle.core_events.specs.Clients.{client_state, state_from_calls, calls_of, number_by_code};
ghost use Rattle.core_events.specs.Events.{Opening, CoreEvent, By, OnNames, Encode};
ghost use Rattle.core_events.specs.Runs.{IsCoreRun};

/// What a client knows is read off its own calls.
pub fn clients_know_by_their_calls()
    ensures { (o : Opening) (a : ℕ) (es : List CoreEvent)
        → client_state o a es ≡ state_from_calls o a (calls_of a es) }
{}

/// Names only grow. A code that was answered keeps its name, and the names that a client was told
/// of are there.
pub fn names_only_grow()
    ensures grow { (o : Opening) (cube dim : ℕ) (later es : List CoreEvent)
        → (rest : List (List ℕ)) × ((dictionary_of o cube dim (later ++ es)).names
        ≡ (dictionary_of o cube dim es).names ++ rest) }
    ensures codes { (o : Opening) (a cube dim n : ℕ) (name : List ℕ) (code : Code)
        (later es : List CoreEvent)
        → IsCoreRun o (By a (OnNames (Encode cube dim name code)) ∷ es)
        → number_by_code code ≡ Some n
        → slice_get (dictionary_of o cube dim
        (later ++ By a (OnNames (Encode cube dim name code)) ∷ es)).names n ≡ Some name }
    ensures known { (o : Opening) (es : List CoreEvent) → IsCoreRun o es → (a cube dim : ℕ)
        → (client_state o a es).names cube dim ≤ length (dictionary_of o cube dim es).names }
{}
