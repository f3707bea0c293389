//! The maker of a run's rounds, of the store that was taken for it.

ghost use Rattle.std.specs.Prelude.{◌≡◌, ◌+◌, ℕ, List, []};
ghost use Rattle.cube_core.specs.declared.cell.CoreCell.{CoreCell};
ghost use Rattle.kept_data.specs.KeptFiles.{IsKeptByFile};
ghost use Rattle.linked_shards.specs.declared.cell.CoreShard.{CoreShard};
ghost use Rattle.opened_core.specs.Openings.{AreCellsOver};
ghost use Rattle.round_store.specs.States.{IsAt};
ghost use Rattle.run_threads.specs.CoreWorks.{KeepsRounds};
ghost use Rattle.stored_rounds.specs.RoundsInStore.{StandsAt};

use crate::law::a_store_keeps_rounds_of_its_core;
use flush_loop::MakesRounds;
use linked_shards::CoreShard;
use opened_store::OpenedStore;
use outside_disk::Disk;
use std::alloc::Global;
use stored_rounds::StoredRounds;

/// Makes the rounds of a run in the store that was taken for it, on its two disks. Of a core that opened
/// over what the store keeps it has kept what the flusher begins with.
pub fn rounds_of_store<D: Disk>(
    alloc: Global,
    opened: OpenedStore,
    disk: D,
    other: D,
) -> StoredRounds<D>
    requires at { IsAt opened.store opened.kept (D.view disk) (D.view other) }
    requires kept { IsKeptByFile opened.kept }
    ensures store { result.store ≡ opened.store }
    ensures first { result.first ≡ disk }
    ensures second { result.second ≡ other }
    ensures stands { StandsAt D.view result opened.kept }
    ensures keeps { (shards sessions caller : ℕ) (cells : List (CoreCell CoreShard))
        → AreCellsOver opened.kept shards sessions cells
        → KeepsRounds ⟦<StoredRounds<D> as MakesRounds<CoreShard>>⟧.serves
        ⟦<StoredRounds<D> as MakesRounds<CoreShard>>⟧.has_kept sessions result result cells caller [] }
{
    a_store_keeps_rounds_of_its_core::<D>();
    let OpenedStore { store, kept: _ } = opened;
    StoredRounds {
        store,
        first: disk,
        second: other,
        alloc,
    }
}
