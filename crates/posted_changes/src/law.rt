//! The laws of rows that are posted to the shards of their bricks.

ghost use Rattle.std.specs.Prelude.{ℕ, ◌≤◌, List};
ghost use Rattle.core_agreements.specs.PostsForOperations.{StandForAll, batches_posted, rows_of_batches};
ghost use Rattle.core_program.specs.CoreFits.{CoreEntry};
ghost use Rattle.cube_core.specs.declared.cell.CoreCell.{CoreCell};
ghost use Rattle.cube_language.specs.declared.decl.Decl.{Decl};
ghost use Rattle.cube_values.specs.declared.row.CodedRow.{CodedRow};
ghost use Rattle.cube_values.specs.declared.row.StoredRow.{StoredRow};
ghost use Rattle.cube_values.specs.declared.shape.CubeShape.{CubeShape};
ghost use Rattle.cube_values.specs.declared.shape.Size.{Size};
ghost use Rattle.linked_shards.specs.CellShards.{CoreShardStands};
ghost use Rattle.linked_shards.specs.declared.cell.CoreShard.{CoreShard};
ghost use Rattle.one_session.specs.Changes.{ComeFor};
ghost use Rattle.posted_pasts.specs.PostsAdded.{AddsAtEpoch, AddsOperations, LearnsThat, batches_among};
ghost use Rattle.session_batches.specs.PutRows.{LearnsOfRows};
ghost use Rattle.session_batches.specs.RowPosts.{row_posts};
ghost use Rattle.session_batches.specs.RowsOut.{LearnsOfPostedRows};
ghost use Rattle.session_batches.specs.declared.answers.PutEnd.{PutEnd};
ghost use Rattle.shard_events.specs.ShardsInRuns.{FitsShard, ShardAnswerSays};

/// A session that puts rows adds their batches to the operations of the cube at its epoch, whatever comes of them, and
/// nothing of another cube or at another epoch. It does so once they are posted.
pub fn posted_rows_are_operations()
    ensures rows { (cells : List (CoreCell CoreShard)) (caller session shards cube epoch : ℕ)
        (shape : CubeShape) (rows : List CodedRow) (told : PutEnd) (own now : List CoreEntry)
        → LearnsOfRows cells caller session shards cube shape epoch rows told own now
        → LearnsThat FitsShard CoreShardStands ShardAnswerSays
        (AddsOperations cube epoch
        (batches_posted (batches_among (row_posts shape.shape.sizes shards cube epoch rows))))
        cells caller session own now }
    ensures posts { (cells : List (CoreCell CoreShard)) (caller session shards cube epoch : ℕ)
        (shape : CubeShape) (rows : List CodedRow) (own now : List CoreEntry)
        → LearnsOfPostedRows cells caller session shards cube shape epoch rows own now
        → LearnsThat FitsShard CoreShardStands ShardAnswerSays
        (AddsOperations cube epoch
        (batches_posted (batches_among (row_posts shape.shape.sizes shards cube epoch rows))))
        cells caller session own now }
    ensures epoch { (cells : List (CoreCell CoreShard)) (caller session shards cube epoch : ℕ)
        (shape : CubeShape) (rows : List CodedRow) (told : PutEnd) (own now : List CoreEntry)
        → LearnsOfRows cells caller session shards cube shape epoch rows told own now
        → LearnsThat FitsShard CoreShardStands ShardAnswerSays (AddsAtEpoch epoch) cells caller
        session own now }
{}

/// Where rows stand for rows of values, so do the batches that are posted to the shards of their bricks: each row goes
/// to one shard.
pub fn posted_rows_stand_for_rows()
    ensures { (sizes : List Size) (shards cube epoch : ℕ) (rows : List CodedRow) (d : Decl)
        (lists : List (List (List ℕ))) (stored : List StoredRow) → 1 ≤ shards
        → ComeFor d lists rows stored
        → StandForAll d lists
        (rows_of_batches (batches_among (row_posts sizes shards cube epoch rows))) stored }
{}
