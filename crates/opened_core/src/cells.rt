//! The cells of a core over what a store kept, and the core in the hands of one thread.
ghost use Rattle.std.specs.Prelude.{◌≡◌, ◌≤◌, ◌^◌, [], IfOk, OnOk};
ghost use Rattle.cube_values.specs.Faults.{IfFault};
ghost use Rattle.kept_data.specs.KeptFiles.{IsKeptByFile};
ghost use Rattle.opened_core.specs.KeptShards.{IsTooFull, TakeAllKept};
ghost use Rattle.opened_core.specs.Openings.{AreCellsOver, OpenOver};

use crate::full::FullShard;
use crate::law::kept_cells_open_runs;
use crate::shard::open_shard;
use aosi_desk::Desk;
use cube_core::CoreCell;
use cube_values::CallError;
use kept_data::{kept_data_are_sound, kept_dictionaries};
use linked_shards::{CoreShard, ShardCells};
use mail_cell::Mail;
use sequential_cells::SequentialCells;
use std::alloc::Global;
use store_reading::Kept;

/// The desk, the names, the shards and the mails in the hands of one thread.
pub type Core = SequentialCells<ShardCells>;

/// The cells of a core of so many shards and sessions, over what a store kept: the desk with its cubes, the
/// dictionaries with its names, each shard with the kept rows of its bricks, and empty mails. It is refused
/// exactly where the kept rows are too many for a shard.
pub fn opening_cells(
    alloc: Global,
    kept: &Kept,
    shards: u32,
    sessions: u32,
) -> Result<Vec<CoreCell<CoreShard>>, CallError<FullShard>>
    requires kept { IsKeptByFile kept.now }
    requires small { kept.now.epoch ≤ 2 ^ 61 }
    requires some_shards { 1 ≤ shards }
    requires few_shards { shards ≤ 64 }
    requires some_sessions { 1 ≤ sessions }
    requires few_sessions { sessions ≤ 16 }
    ensures cells { IfOk result (λ cells. AreCellsOver kept.now shards sessions cells.items) }
    ensures opens { IfOk result (λ cells. OpenOver kept.now shards sessions cells.items) }
    ensures takes { OnOk result (TakeAllKept kept.now shards) }
    ensures full { IfFault result (IsTooFull kept.now shards) }
{
    kept_data_are_sound();
    kept_cells_open_runs();
    let mut cells = Vec::new(alloc);
    let desk = Desk::new(alloc, sessions, kept.cubes.as_slice(), kept.epoch)?;
    cells.push(CoreCell::Desk { desk, alloc })?;
    let names = kept_dictionaries(alloc, kept.cubes.as_slice(), &kept.names)?;
    cells.push(CoreCell::Names(names))?;
    'shards: for number in 0..shards {
        let shard = open_shard(alloc, kept, shards, number)?;
        cells.push(CoreCell::Shard(shard))?;
    }
    'mails: for _number in 0..shards {
        let mail = Mail::new(alloc, sessions + 2)?;
        cells.push(CoreCell::Mail(mail))?;
    }
    let mail = Mail::new(alloc, sessions + 1)?;
    cells.push(CoreCell::Mail(mail))?;
    Ok(cells)
}

/// The core of so many shards and sessions over what a store kept, for one thread that steps it. It is
/// refused exactly where the kept rows are too many for a shard.
pub fn open_core(
    alloc: Global,
    kept: &Kept,
    shards: u32,
    sessions: u32,
) -> Result<Core, CallError<FullShard>>
    requires kept { IsKeptByFile kept.now }
    requires small { kept.now.epoch ≤ 2 ^ 61 }
    requires some_shards { 1 ≤ shards }
    requires few_shards { shards ≤ 64 }
    requires some_sessions { 1 ≤ sessions }
    requires few_sessions { sessions ≤ 16 }
    ensures cells { IfOk result (AreCellsOver kept.now shards sessions) }
    ensures opens { IfOk result (OpenOver kept.now shards sessions) }
    ensures takes { OnOk result (TakeAllKept kept.now shards) }
    ensures full { IfFault result (IsTooFull kept.now shards) }
{
    let cells = opening_cells(alloc, kept, shards, sessions)?;
    Ok(SequentialCells::of(cells))
}
