//! The words, the line, and each path on a thousand items or some more. The checksums were computed apart, from PCG's
//! numbers and plain loops over rows, marks and names.

use crate::board::{measure_calls, measure_cells, measure_locks};
use crate::desks::Turns;
use crate::known::FindKnown;
use crate::line::Line;
use crate::loads::{LoadStep, Records};
use crate::mails::Deliver;
use crate::names::{Encode, Lookup};
use crate::request::{HotPath, Request, asked_for};
use crate::scripts::Split;
use crate::vectors::{Plan, Visible};
use measured_rows::{
    Copies, Count, Digest, Fold, Keep, ReadRound, Scan, Sum, measure_append, measure_store_open,
    measure_store_read, measure_write,
};
use measured_shards::{ShardBricks, ShardScan, measure_shard_append};
use std::alloc::{AllocError, Global};
use std::test::Fail;
use timed_work::{Measured, Work};

/// What words with a space between each two ask for.
fn asked(alloc: Global, words: &str) -> Result<Option<Request>, AllocError> {
    let mut list = Vec::new(alloc);
    for word in words.split_whitespace() {
        list.push(String::from_str(alloc, word)?)?;
    }
    Ok(asked_for(list.as_slice()))
}

#[test]
fn words_that_are_calls(rt: HostRuntime) -> Result<(), Fail> {
    let plain = Request {
        timed: false,
        path: HotPath::Split,
        items: 65_536,
    };
    let timed = Request {
        timed: true,
        path: HotPath::Mail,
        items: 1,
    };
    assert_eq!(rt; asked(rt.alloc(), "split 65536")?, Some(plain));
    assert_eq!(rt; asked(rt.alloc(), "--time mail 1")?, Some(timed));
    Ok(())
}

#[test]
fn words_that_are_none(rt: HostRuntime) -> Result<(), Fail> {
    let refused = [
        "",
        "split",
        "split 0",
        "split 65537",
        "split -1",
        "split x",
        "splits 5",
        "--time split",
        "--fast split 5",
        "split 5 --time",
        "--time split 5 5",
    ];
    for words in refused {
        assert_eq!(rt; asked(rt.alloc(), words)?, None);
    }
    Ok(())
}

#[test]
fn lines(rt: HostRuntime) -> Result<(), Fail> {
    let measured = Measured {
        checksum: 7,
        nanoseconds: 1_239,
    };
    let plain = Line {
        request: Request {
            timed: false,
            path: HotPath::Fold,
            items: 100,
        },
        measured,
    };
    let timed = Line {
        request: Request {
            timed: true,
            path: HotPath::Plan,
            items: 100,
        },
        measured,
    };
    let said = format!(in rt.alloc(); "{plain}|{timed}")?;
    assert_eq!(rt;
        said.as_str(),
        "100 rows folded, checksum 7|100 entries purged, checksum 7, 12.3 ns each"
    );
    Ok(())
}

/// The checksum of a path on a thousand items.
fn checksum<W: Work + Drop>(alloc: Global) -> Result<u64, AllocError> {
    checksum_over::<W>(alloc, 1_000)
}

/// The checksum of a path on so many items.
fn checksum_over<W: Work + Drop>(alloc: Global, items: u32) -> Result<u64, AllocError> {
    let mut data = W::prepared(alloc, items)?;
    data.work(alloc)
}

#[test]
fn checksums(rt: HostRuntime) -> Result<(), Fail> {
    assert_eq!(rt; checksum::<Split>(rt.alloc())?, 1_000);
    assert_eq!(rt; checksum::<Encode>(rt.alloc())?, 101);
    assert_eq!(rt; checksum::<Lookup>(rt.alloc())?, 50_961);
    assert_eq!(rt; checksum::<FindKnown>(rt.alloc())?, 50_961);
    assert_eq!(rt; checksum::<Visible>(rt.alloc())?, 40_000);
    assert_eq!(rt; checksum::<Plan>(rt.alloc())?, 10_401);
    assert_eq!(rt; checksum::<Fold>(rt.alloc())?, 8_001_016);
    assert_eq!(rt; checksum::<Deliver>(rt.alloc())?, 1_155_500);
    assert_eq!(rt; checksum::<Turns>(rt.alloc())?, 251);
    assert_eq!(rt; checksum::<Records>(rt.alloc())?, 1_000);
    assert_eq!(rt; checksum::<LoadStep>(rt.alloc())?, 1_000);
    assert_eq!(rt; checksum::<Digest>(rt.alloc())?, 21);
    assert_eq!(rt; measure_write(&rt, rt.alloc(), 1_000)?.checksum, 18_633);
    assert_eq!(rt; checksum::<ReadRound>(rt.alloc())?, 18_633);
    assert_eq!(rt;
        measure_store_read(&rt, rt.alloc(), 1_000)?.checksum,
        18_754
    );
    assert_eq!(rt; measure_store_open(&rt, rt.alloc(), 1_000)?.checksum, 1);
    assert_eq!(rt; checksum::<Copies>(rt.alloc())?, 2_000);
    assert_eq!(rt; measure_append(&rt, rt.alloc(), 1_000)?.checksum, 1_000);
    assert_eq!(rt; checksum::<Sum>(rt.alloc())?, 504_293);
    assert_eq!(rt; checksum::<Scan>(rt.alloc())?, 49_899);
    assert_eq!(rt; checksum::<Count>(rt.alloc())?, 1_000);
    assert_eq!(rt; checksum::<Keep>(rt.alloc())?, 513);
    assert_eq!(rt; measure_locks(&rt, 1_000)?.checksum, 1_000);
    assert_eq!(rt; measure_calls(&rt, rt.alloc(), 1_000)?.checksum, 1_000);
    assert_eq!(rt; measure_cells(&rt, rt.alloc(), 1_000)?.checksum, 4_000);
    Ok(())
}

/// Ten thousand rows are two whole batches and a short one.
#[test]
fn shard_checksums(rt: HostRuntime) -> Result<(), Fail> {
    let appended = measure_shard_append(&rt, rt.alloc(), 10_000)?.checksum;
    assert_eq!(rt; appended, 10_000);
    assert_eq!(rt; checksum_over::<ShardScan>(rt.alloc(), 10_000)?, 504_331);
    assert_eq!(rt; checksum::<ShardBricks>(rt.alloc())?, 201_003);
    Ok(())
}
