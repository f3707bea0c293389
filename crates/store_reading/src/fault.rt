//! Why two files do not stand for a store.

ghost use Rattle.std.specs.Prelude.{◌≡◌, ◌+◌, ◌<◌, ◌^◌};
ghost use Rattle.store_reading.specs.Fronts.{header_fault};
ghost use Rattle.store_reading.specs.Rounds.{round_fault};
ghost use Rattle.store_reading.specs.Places.{fault_place};

use round_fields::FormatFault;

/// What is wrong with a pair of files. Places are in the file that has the fault.
#[derive(Clone, Copy, Debug, PartialEq, Eq)]
pub enum PairFault {
    /// Neither file is a store's.
    NotAStore,
    /// A file has another version than 1 and 2.
    Version {
        found: u32,
    },
    /// A header or a round breaks a rule, or does not lie whole in its file.
    Damaged {
        at: u64,
    },
    /// The digest of a round is not that of its bytes. Rounds count from 1; 0 is the header.
    DamagedRound {
        round: u64,
        kept: [u8; 32],
        found: [u8; 32],
    },
    /// Both files have this generation.
    TwoGenerations {
        generation: u64,
    },
    /// The greater generation is above 2^61.
    GenerationsSpent {
        generation: u64,
    },
}

/// A header's fault in its file.
pub(crate) fn header_fault(fault: FormatFault) -> PairFault
    ensures { result ≡ header_fault fault }
{
    match fault {
        FormatFault::BadText { at } => PairFault::Damaged { at },
        FormatFault::BadDigest { kept, found } => PairFault::DamagedRound {
            round: 0,
            kept,
            found,
        },
    }
}

/// The fault of a round that begins at a place of its file.
pub(crate) fn round_fault(number: u64, start: u64, fault: FormatFault) -> PairFault
    requires { start + fault_place fault < 2 ^ 64 }
    ensures { result ≡ round_fault number start fault }
{
    match fault {
        FormatFault::BadText { at } => PairFault::Damaged { at: start + at },
        FormatFault::BadDigest { kept, found } => PairFault::DamagedRound {
            round: number,
            kept,
            found,
        },
    }
}
