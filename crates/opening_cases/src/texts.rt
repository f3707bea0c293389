//! How the faults of a store are shown.

use opened_store::{Digest, StoreFault};
use std::test::*;

/// A digest, and another.
const KEPT: [u8; 32] = [
    0xa4, 0x57, 0xb0, 0x5d, 0x9f, 0x1a, 0xed, 0xb8, 0x45, 0x1e, 0x06, 0xf4, 0xbe, 0xb5, 0xe3, 0x42,
    0xa6, 0xcb, 0x6c, 0xe5, 0x9a, 0xf2, 0xa4, 0x10, 0x2b, 0x85, 0x9b, 0xdc, 0xbb, 0x08, 0x84, 0xaf,
];

const FOUND: [u8; 32] = [
    0x99, 0x5c, 0x80, 0x62, 0x12, 0xcd, 0x08, 0x94, 0xa0, 0x5c, 0x8e, 0xb9, 0x02, 0x29, 0xe5, 0x52,
    0xb1, 0x84, 0xa4, 0xda, 0x84, 0xbb, 0x2a, 0x73, 0xa2, 0xcc, 0x75, 0x13, 0x09, 0x04, 0x8c, 0xc8,
];

/// Faults and their texts.
const TEXTS: &[(StoreFault, &str)] = &[
    (StoreFault::NotAStore, "not a store"),
    (StoreFault::Version { found: 9 }, "store version 9"),
    (StoreFault::Damaged { at: 87 }, "damaged at 87"),
    (
        StoreFault::DamagedRound {
            round: 1,
            kept: Digest { bytes: KEPT },
            found: Digest { bytes: FOUND },
        },
        "round 1 kept a457b05d9f1aedb8451e06f4beb5e342a6cb6ce59af2a4102b859bdcbb0884af \
        found 995c806212cd0894a05c8eb90229e552b184a4da84bb2a73a2cc751309048cc8",
    ),
    (
        StoreFault::TwoGenerations { generation: 1 },
        "two files of generation 1",
    ),
    (
        StoreFault::GenerationsSpent {
            generation: (1 << 61) + 1,
        },
        "generations spent at 2305843009213693953",
    ),
    (StoreFault::SchemaDiffers { place: 1 }, "cubes differ at 1"),
    (
        StoreFault::EpochsSpent {
            epoch: (1 << 61) + 1,
        },
        "epochs spent at 2305843009213693953",
    ),
    (
        StoreFault::ShardFull { shard: 3, rows: 5 },
        "shard 3 full with 5 rows",
    ),
    (StoreFault::DiskFault, "disk fault"),
];

#[test]
fn faults_are_shown(rt: HostRuntime) -> Result<(), Fail> {
    for (fault, text) in TEXTS {
        let shown = format!(in rt.alloc(); "{fault}")?;
        assert_eq!(rt; shown.as_str(), *text);
    }
    Ok(())
}
