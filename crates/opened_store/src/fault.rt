//! Why a run has no store.

ghost use Rattle.std.specs.Prelude.{◌≡◌};
ghost use Rattle.opened_store.specs.Causes.{fault_of_pair};

use crate::digest::Digest;
use store_reading::PairFault;
use thiserror::Error;

/// Why a run has no store. Places in files are those of the file that has the fault.
#[derive(Clone, Copy, Debug, PartialEq, Eq, Error)]
pub enum StoreFault {
    /// Neither file is a store's.
    #[error("not a store")]
    NotAStore,
    /// A file has another version than 1 and 2.
    #[error("store version {found}")]
    Version {
        found: u32,
    },
    /// A header or a round breaks a rule, or does not lie whole in its file.
    #[error("damaged at {at}")]
    Damaged {
        at: u64,
    },
    /// The digest of a round is not that of its bytes. Rounds count from 1; 0 is the header.
    #[error("round {round} kept {kept} found {found}")]
    DamagedRound {
        round: u64,
        kept: Digest,
        found: Digest,
    },
    /// Both files have this generation.
    #[error("two files of generation {generation}")]
    TwoGenerations {
        generation: u64,
    },
    /// The greater generation is above 2^61.
    #[error("generations spent at {generation}")]
    GenerationsSpent {
        generation: u64,
    },
    /// The cubes of the header are not those of the run. This is the first place at which they differ or
    /// one of the lists ends.
    #[error("cubes differ at {place}")]
    SchemaDiffers {
        place: u64,
    },
    /// The kept epoch is above 2^61.
    #[error("epochs spent at {epoch}")]
    EpochsSpent {
        epoch: u64,
    },
    /// The kept rows are too many for a shard, which has so many when it does not take those of the next
    /// cube.
    #[error("shard {shard} full with {rows} rows")]
    ShardFull {
        shard: u32,
        rows: u64,
    },
    /// A disk counted a fault.
    #[error("disk fault")]
    DiskFault,
}

/// What is wrong with two files.
pub(crate) fn fault_of_pair(fault: PairFault) -> StoreFault
    ensures { result ≡ fault_of_pair fault }
{
    match fault {
        PairFault::NotAStore => StoreFault::NotAStore,
        PairFault::Version { found } => StoreFault::Version { found },
        PairFault::Damaged { at } => StoreFault::Damaged { at },
        PairFault::DamagedRound { round, kept, found } => StoreFault::DamagedRound {
            round,
            kept: Digest { bytes: kept },
            found: Digest { bytes: found },
        },
        PairFault::TwoGenerations { generation } => StoreFault::TwoGenerations { generation },
        PairFault::GenerationsSpent { generation } => StoreFault::GenerationsSpent { generation },
    }
}
