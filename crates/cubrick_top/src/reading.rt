//! The run of a command: its files are read, and then its scripts are run.
ghost use Rattle.std.specs.Prelude.{◌≡◌, ◌↔◌, ◌≤◌, IsSome, length, map};
ghost use Rattle.outside_disk.specs.Views.{IsSynced};
ghost use Rattle.cubrick_top.specs.PlayedEnds.{OutputRises};
ghost use Rattle.cubrick_top.specs.RunEnds.{RunEnds};
ghost use Rattle.cubrick_top.specs.Statuses.{status_of};
ghost use Rattle.cubrick_top.specs.Unplayed.{fault_of_file};

use crate::fault::{Fault, finish_unplayed};
use crate::opening::run_input;
use crate::surroundings::{Ended, Outside};
use cube_values::CallError;
use outside::{Shelf, Sink};
use outside_disk::{Disk, Gate};
use run_files::BadFile;
use run_inputs::{read_run_files, scripts_that_were_read_may_be_given};
use run_words::RunCommand;
use std::alloc::Global;
use std::sync::Wait;
use std::thread::Threads;
use threaded_callers::ThreadStarter;

// The fault of a run for what is wrong with a file.
fn fault_of_file(error: CallError<BadFile>) -> Fault
    ensures { result ≡ fault_of_file error }
{
    match error {
        CallError::Fault(bad) => Fault::File { bad },
        CallError::NoMemory => Fault::NoMemory,
    }
}

/// Reads the cubes file and the scripts through the first shelf, and runs the scripts.
pub(crate) fn run_command<
    R: Threads + Wait + Sync,
    H: Shelf + Send + Drop,
    D: Disk + Send + Drop,
    K: Sink,
    G: Gate + Sync,
>(
    rt: &R,
    alloc: Global,
    starter: ThreadStarter,
    command: RunCommand,
    outside: Outside<H, D>,
    gate: &G,
    sink: &mut K,
) -> Ended<H, D>
    requires some_shards { 1 ≤ command.settings.shards }
    requires few_shards { command.settings.shards ≤ 64 }
    requires some { 1 ≤ length command.scripts }
    requires few { length command.scripts ≤ 16 }
    requires shelves { 16 ≤ length outside.shelves.items }
    requires first_synced { IsSynced (D.view outside.disk) }
    requires second_synced { IsSynced (D.view outside.other) }
    requires both { IsSome (D.view outside.disk).told ↔ IsSome (D.view outside.other).told }
    ensures status { result.finish.status ≡ status_of result.finish.fault }
    ensures output { OutputRises result.finish.fault
        (K.fault_count sink.old) (K.fault_count sink.new) }
    ensures same { map H.told result.outside.shelves.items ≡ map H.told outside.shelves.items }
    ensures ends { RunEnds H.told H.call_list H.fault_count H.absence_count D.view command outside
        result.outside (K.taken sink.old) (K.taken sink.new) result.finish }
{
    scripts_that_were_read_may_be_given();
    let mut outside = outside;
    let RunCommand {
        cubes,
        store,
        settings,
        scripts,
    } = command;
    match read_run_files(
        rt,
        alloc,
        &mut outside.shelves[0],
        cubes.as_str(),
        scripts.as_slice(),
    ) {
        Ok(input) => run_input(
            rt, alloc, starter, settings, store, input, outside, gate, sink,
        ),
        Err(error) => Ended {
            finish: finish_unplayed(alloc, fault_of_file(error)),
            outside,
        },
    }
}
