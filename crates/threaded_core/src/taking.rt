//! The cells of a core are taken apart.
ghost use Rattle.std.specs.Prelude.{◌≡◌, ◌≤◌, [], length, vec_capacity};
ghost use Rattle.cube_core.specs.declared.cell.CoreCell.TheVariants as cell;
ghost use Rattle.threaded_core.specs.CoreParts.{BeginWith, BeginWithCore, BeginWithShards, HoldParts, IsShardCell};

use crate::cores::CoreLeft;
use aosi_desk::Desk;
use cube_core::CoreCell;
use linked_shards::CoreShard;
use names_dict::Dicts;

// The shard of a cell that has one.
fn shard_of(held: CoreCell<CoreShard>) -> CoreShard
    requires { IsShardCell held }
    ensures { held ≡ cell.Shard result }
{
    match held {
        CoreCell::Shard(shard) => shard,
        _ => unreachable!(),
    }
}

// So many shards out of the first cells. The list of shards has room.
fn take_shards(cells: Vec<CoreCell<CoreShard>>, shards: Vec<CoreShard>, many: u32) -> Vec<CoreShard>
    requires begin { BeginWithShards many cells.items }
    requires empty { shards.items ≡ [] }
    requires room { many ≤ vec_capacity shards }
    ensures shards { BeginWith result.items cells.items }
    ensures many { length result.items ≡ many }
{
    let mut left = cells;
    let mut shards = shards;
    'shards: for _number in 0..many {
        shards.push_reserved(shard_of(left.remove(0)));
    }
    shards
}

/// The desk, the names and so many shards of a core, out of its cells. The list of shards has room.
pub fn take_apart(cells: Vec<CoreCell<CoreShard>>, shards: Vec<CoreShard>, many: u32) -> CoreLeft
    requires core { BeginWithCore many cells.items }
    requires empty { shards.items ≡ [] }
    requires room { many ≤ vec_capacity shards }
    ensures parts { HoldParts cells.items result.desk result.names result.shards.items }
    ensures many { length result.shards.items ≡ many }
{
    let mut left = cells;
    let CoreCell::Desk { desk, alloc: _ } = left.remove(0) else {
        unreachable!()
    };
    let CoreCell::Names(names) = left.remove(0) else {
        unreachable!()
    };
    let shards = take_shards(left, shards, many);
    CoreLeft {
        desk,
        names,
        shards,
    }
}
