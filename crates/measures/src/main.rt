//! The program `measures [--time] NAME N`: runs a hot call on data made from a seed, and prints what was done
//! and a checksum, which is the same at each run; with `--time` also the time per item.
#![tactic(auto)]

mod board;
mod desks;
mod known;
mod line;
mod loads;
mod mails;
mod names;
mod request;
mod scripts;
mod vectors;

use board::{measure_calls, measure_cells, measure_locks};
use desks::Turns;
use known::FindKnown;
use line::Line;
use loads::{LoadStep, Records};
use mails::Deliver;
use measured_rows::{
    Copies, Count, Digest, Fold, Keep, ReadRound, Scan, Sum, measure_append, measure_store_open,
    measure_store_read, measure_write,
};
use measured_shards::{ShardBricks, ShardScan, measure_shard_append};
use names::{Encode, Lookup};
use request::{HotPath, Request, asked_for};
use scripts::Split;
use std::io::ErrorKind;
use std::process::ExitCode;
use std::rt::{Env, Runtime};
use std::sync::Wait;
use std::thread::Threads;
use std::time::Clock;
use std::{env, io};
use timed_work::{Measured, measure};
use vectors::{Plan, Visible};

#[cfg(test)]
mod tests;

const USAGE: &str = "usage: measures [--time] \
    split|encode|lookup|known|visible|plan|fold|mail|desk|lock|call|cells|records|load_step|\
    digest|round_write|round_read|store_read|store_open|copy|brick_append|sum|brick_scan|brick_count|brick_keep|\
    shard_append|shard_scan|shard_bricks N";

/// The words after the program's name, and none where a word is not UTF-8. The error is want of memory.
fn words<R: Env + AllocGlobal>(rt: &R) -> io::Result<Vec<String>> {
    match env::args(rt) {
        Ok(all) => Ok(all.skip(1).collect(rt.alloc())?),
        Err(error) if error.kind() == ErrorKind::OutOfMemory => Err(error),
        Err(_) => Ok(Vec::new(rt.alloc())),
    }
}

/// What a request measures.
fn ran<R: Clock + AllocGlobal + Threads + Wait + Sync>(
    rt: &R,
    request: &Request,
) -> io::Result<Measured> {
    let items = request.items;
    match request.path {
        HotPath::Split => measure::<Split, R>(rt, rt.alloc(), items),
        HotPath::Encode => measure::<Encode, R>(rt, rt.alloc(), items),
        HotPath::Lookup => measure::<Lookup, R>(rt, rt.alloc(), items),
        HotPath::Known => measure::<FindKnown, R>(rt, rt.alloc(), items),
        HotPath::Visible => measure::<Visible, R>(rt, rt.alloc(), items),
        HotPath::Plan => measure::<Plan, R>(rt, rt.alloc(), items),
        HotPath::Fold => measure::<Fold, R>(rt, rt.alloc(), items),
        HotPath::Mail => measure::<Deliver, R>(rt, rt.alloc(), items),
        HotPath::Desk => measure::<Turns, R>(rt, rt.alloc(), items),
        HotPath::Lock => measure_locks(rt, items),
        HotPath::Call => measure_calls(rt, rt.alloc(), items),
        HotPath::Cells => measure_cells(rt, rt.alloc(), items),
        HotPath::Records => measure::<Records, R>(rt, rt.alloc(), items),
        HotPath::LoadStep => measure::<LoadStep, R>(rt, rt.alloc(), items),
        HotPath::Digest => measure::<Digest, R>(rt, rt.alloc(), items),
        HotPath::RoundWrite => measure_write(rt, rt.alloc(), items),
        HotPath::RoundRead => measure::<ReadRound, R>(rt, rt.alloc(), items),
        HotPath::StoreRead => measure_store_read(rt, rt.alloc(), items),
        HotPath::StoreOpen => measure_store_open(rt, rt.alloc(), items),
        HotPath::Copy => measure::<Copies, R>(rt, rt.alloc(), items),
        HotPath::BrickAppend => measure_append(rt, rt.alloc(), items),
        HotPath::Sum => measure::<Sum, R>(rt, rt.alloc(), items),
        HotPath::BrickScan => measure::<Scan, R>(rt, rt.alloc(), items),
        HotPath::BrickCount => measure::<Count, R>(rt, rt.alloc(), items),
        HotPath::BrickKeep => measure::<Keep, R>(rt, rt.alloc(), items),
        HotPath::ShardAppend => measure_shard_append(rt, rt.alloc(), items),
        HotPath::ShardScan => measure::<ShardScan, R>(rt, rt.alloc(), items),
        HotPath::ShardBricks => measure::<ShardBricks, R>(rt, rt.alloc(), items),
    }
}

/// The exit status: 0 after the line, 2 after the usage line.
fn finish<R: Runtime + AllocGlobal + Threads + Wait + Sync>(rt: &R) -> io::Result<u8> {
    let words = words(rt)?;
    let Some(request) = asked_for(words.as_slice()) else {
        eprintln!(rt; "{USAGE}")?;
        return Ok(2);
    };
    let measured = ran(rt, &request)?;
    let line = Line { request, measured };
    println!(rt; "{line}")?;
    Ok(0)
}

fn main(rt: HostRuntime) -> io::Result<ExitCode> {
    Ok(ExitCode::from(finish(&rt)?))
}
