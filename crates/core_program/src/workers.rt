//! The law of workers.

ghost use Rattle.std.specs.Prelude.{◌≡◌, ℕ, List};
ghost use Rattle.board_callers.specs.Callers.{HasHistoryOf};
ghost use Rattle.core_program.specs.CoreFits.{CoreEntry, FitsOwnCalls};
ghost use Rattle.core_program.specs.Workers.{IsShardWork, IsWorkerOf, JobTaken, MayServe, in_hand};
ghost use Rattle.cube_core.specs.CoreSteps.{CoreStep};
ghost use Rattle.cube_core.specs.declared.cell.CoreCell.{CoreCell};
ghost use Rattle.cube_core.specs.declared.jobs.Job.{Job};

use cube_core::LinkedShard;

/// The worker of a shard may take a job where it has none in hand, do on its shard what it took, and
/// reply what it did, whatever others do. A job that it took is one for a shard.
pub fn workers_serve_their_shards<S: LinkedShard>()
    ensures may { (cells : List (CoreCell S)) (caller number cell : ℕ) (own : List CoreEntry)
        → IsWorkerOf S.fits S.stands S.says cells caller number cell
        → MayServe S.fits S.stands S.says cells caller number cell own }
    ensures calls { (cells : List (CoreCell S)) (caller number cell : ℕ) (own : List CoreEntry)
        (client : ℕ) (job : Job) → IsWorkerOf S.fits S.stands S.says cells caller number cell
        → HasHistoryOf (CoreStep S.step) (FitsOwnCalls S.fits S.stands S.says) cells caller own
        → in_hand own ≡ JobTaken client job → IsShardWork job.work }
{}
