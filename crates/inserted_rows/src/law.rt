//! The laws of rows by coordinates, in each run that goes on.

ghost use Rattle.std.specs.Prelude.{ℕ, ◌≤◌, List, All, map};
ghost use mathlib.Core.List.{IsPrefix};
ghost use Rattle.core_agreements.specs.PostsForOperations.{StandForAll, rows_of_batches};
ghost use Rattle.core_names.specs.NamesInTheEnd.{MayLeaveNames, OpenWithNames};
ghost use Rattle.core_program.specs.CoreFits.{CoreEntry};
ghost use Rattle.cube_core.specs.declared.cell.CoreCell.{CoreCell};
ghost use Rattle.cube_language.specs.declared.decl.Decl.{Decl};
ghost use Rattle.cube_run.specs.LoadedRows.{row_of_values};
ghost use Rattle.cube_run.specs.RunTransactions.{rows_of_cube};
ghost use Rattle.cube_values.specs.declared.row.CodedRow.{CodedRow};
ghost use Rattle.cube_values.specs.declared.shape.Size.{Size};
ghost use Rattle.cube_values.specs.declared.value.Value.{Value};
ghost use Rattle.inserted_rows.specs.RowsInTheEnd.{HoldsInTheEnd, IsToldOfCubeAt};
ghost use Rattle.linked_shards.specs.CellShards.{CoreShardStands};
ghost use Rattle.linked_shards.specs.declared.cell.CoreShard.{CoreShard};
ghost use Rattle.one_session.specs.Changes.{ComeFor};
ghost use Rattle.posted_pasts.specs.PostsAdded.{batches_among};
ghost use Rattle.row_encoding.specs.CodedInserts.{HasCoords, RowsStandFor};
ghost use Rattle.row_encoding.specs.CodedValues.{NumbersHaveNoNames};
ghost use Rattle.session_batches.specs.RowPosts.{row_posts};
ghost use Rattle.shard_events.specs.ShardsInRuns.{FitsShard, ShardAnswerSays};

/// No dimension of numbers has names in the end, of a cube that the session was told of. And with more calls no other
/// names are left in the end.
pub fn names_end_as_dimensions_say()
    ensures numbers { (cells : List (CoreCell CoreShard)) (caller place : ℕ) (own : List CoreEntry) (d : Decl)
        → OpenWithNames FitsShard CoreShardStands ShardAnswerSays cells → IsToldOfCubeAt own place d
        → HoldsInTheEnd cells caller own place (NumbersHaveNoNames d) }
    ensures later { (cells : List (CoreCell CoreShard)) (caller : ℕ) (own now : List CoreEntry)
        (names : List (List (List (List ℕ)))) → IsPrefix own now
        → MayLeaveNames FitsShard CoreShardStands ShardAnswerSays cells caller now names
        → MayLeaveNames FitsShard CoreShardStands ShardAnswerSays cells caller own names }
{}

/// Where rows by coordinates stand for those of an INSERT in the end, they come for all that it puts, and so do the
/// batches in which they are posted to the shards of their bricks.
pub fn rows_stand_for_what_is_put()
    ensures come { (cells : List (CoreCell CoreShard)) (caller place : ℕ) (own : List CoreEntry) (d : Decl)
        (given : List (List Value)) (rows : List CodedRow)
        → OpenWithNames FitsShard CoreShardStands ShardAnswerSays cells → IsToldOfCubeAt own place d
        → All (HasCoords d) rows
        → HoldsInTheEnd cells caller own place (λ lists. RowsStandFor d lists given rows)
        → HoldsInTheEnd cells caller own place
        (λ lists. ComeFor d lists rows (rows_of_cube d.name (map (row_of_values d) given))) }
    ensures posted { (cells : List (CoreCell CoreShard)) (caller place shards epoch : ℕ) (own : List CoreEntry)
        (sizes : List Size) (d : Decl) (given : List (List Value)) (rows : List CodedRow) → 1 ≤ shards
        → OpenWithNames FitsShard CoreShardStands ShardAnswerSays cells → IsToldOfCubeAt own place d
        → All (HasCoords d) rows
        → HoldsInTheEnd cells caller own place (λ lists. RowsStandFor d lists given rows)
        → HoldsInTheEnd cells caller own place (λ lists. StandForAll d lists
        (rows_of_batches (batches_among (row_posts sizes shards place epoch rows)))
        (rows_of_cube d.name (map (row_of_values d) given))) }
{}
