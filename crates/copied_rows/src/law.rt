//! Laws of what shards have and copy, over every run of the core.

ghost use Rattle.std.specs.Prelude.{ℕ, List, All};
ghost use Rattle.core_serial.specs.Copies.{HasCopied, copies_by};
ghost use Rattle.core_events.specs.Cells.{shard_view_of};
ghost use Rattle.core_events.specs.Clients.{client_state};
ghost use Rattle.core_events.specs.Events.{Opening, CoreEvent};
ghost use Rattle.core_events.specs.Runs.{IsCoreRun};
ghost use Rattle.core_events.specs.ShardView.{rows_appended};
ghost use Rattle.copied_rows.specs.CopiedRows.{IsPlacedRow, IsCopiedBrick, KeptAreCubeRows};

/// What a shard has of a brick are rows of the cube, each in the brick of its coordinates, and the names of
/// their texts are there, where this holds of the kept rows.
pub fn shards_have_rows_of_their_bricks()
    ensures { (o : Opening) (es : List CoreEvent) (cube brick : ℕ) → IsCoreRun o es → KeptAreCubeRows o
        → All (IsPlacedRow o es cube brick) (rows_appended (shard_view_of o es cube brick)) }
{}

/// What the shards' answers to a round have of a brick are entries of the round's epochs and such rows of that
/// brick, and nothing of a brick that the cube has not.
pub fn copies_have_rows_of_their_bricks()
    ensures { (o : Opening) (es : List CoreEvent) (a from to cube brick : ℕ) → IsCoreRun o es
        → KeptAreCubeRows o
        → HasCopied o.shards from to (client_state o a es).group
        → IsCopiedBrick o es from to cube brick
        (copies_by o (client_state o a es).group.answers cube brick) }
{}
