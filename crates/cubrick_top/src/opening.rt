//! The run of scripts that were read: with a store or without.
ghost use Rattle.std.specs.Prelude.{◌≡◌, ◌↔◌, ◌≤◌, ◌^◌, IsSome, None, Some, length, map, true, unwrap_or};
ghost use Rattle.std.specs.List.{AllByRecursion};
ghost use Rattle.script_sentences.specs.GivenTexts.{MayBeSaid};
ghost use Rattle.cube_schema.specs.Texts.{AreDeclared};
ghost use Rattle.kept_data.specs.KeptFiles.{IsKeptByFile};
ghost use Rattle.outside_disk.specs.Views.{IsSynced};
ghost use Rattle.played_runs.specs.ReadySessions.{sentences_of};
ghost use Rattle.round_store.specs.States.{IsAt};
ghost use Rattle.cubrick_top.specs.KeptRuns.{KeepRecord, KeepRun};
ghost use Rattle.cubrick_top.specs.LostRounds.{LosesByFault};
ghost use Rattle.cubrick_top.specs.OpenedEnds.{EndsInStore, OpenedEnds, disks_in};
ghost use Rattle.cubrick_top.specs.PlayedEnds.{OutputRises, PlayedEnds};
ghost use Rattle.cubrick_top.specs.Statuses.{status_of};
ghost use Rattle.cubrick_top.specs.Unplayed.{fault_of_store};

use crate::fault::{Fault, finish_unplayed};
use crate::playing::{Closed, play_kept};
use crate::surroundings::{Ended, Outside};
use cube_values::CallError;
use flush_loop::NoStore;
use opened_rounds::{a_core_without_a_store_keeps_no_rounds, a_store_keeps_rounds_of_its_core};
use opened_store::{OpenedStore, StoreFault, kept_at_start, take_store};
use outside::{Shelf, Sink};
use outside_disk::{Disk, Gate};
use recorded_images::{
    a_store_keeps_the_events_at_every_moment, a_store_keeps_the_record_at_every_moment,
};
use run_inputs::RunInput;
use run_words::{Settings, StoreName};
use script_sentences::Said;
use std::alloc::Global;
use std::sync::Wait;
use std::thread::Threads;
use stored_rounds::StoredRounds;
use threaded_callers::ThreadStarter;

// The fault of a run that has no store.
fn fault_of_store(error: CallError<StoreFault>) -> Fault
    ensures { result ≡ fault_of_store error }
{
    match error {
        CallError::Fault(fault) => Fault::Store { fault },
        CallError::NoMemory => Fault::NoMemory,
    }
}

// Runs without a store.
fn run_without_store<
    R: Threads + Wait + Sync,
    H: Shelf + Send + Drop,
    D: Disk + Drop,
    K: Sink,
    G: Gate + Sync,
>(
    rt: &R,
    alloc: Global,
    starter: ThreadStarter,
    settings: Settings,
    input: RunInput,
    outside: Outside<H, D>,
    gate: &G,
    sink: &mut K,
) -> Ended<H, D>
    requires declared { AreDeclared input.cubes.items }
    requires some_shards { 1 ≤ settings.shards }
    requires few_shards { settings.shards ≤ 64 }
    requires some { 1 ≤ length input.scripts.items }
    requires few { length input.scripts.items ≤ 16 }
    requires said { AllByRecursion MayBeSaid input.scripts.items }
    requires shelves { length input.scripts.items ≤ length outside.shelves.items }
    ensures status { result.finish.status ≡ status_of result.finish.fault }
    ensures output { OutputRises result.finish.fault
        (K.fault_count sink.old) (K.fault_count sink.new) }
    ensures same { map H.told result.outside.shelves.items ≡ map H.told outside.shelves.items }
    ensures ends { OpenedEnds D.view H.told H.fault_count H.absence_count None input.cubes.items
        settings.shards (unwrap_or settings.round_every 0) (map sentences_of input.scripts.items)
        outside result.outside (K.taken sink.old) (K.taken sink.new) result.finish }
{
    a_core_without_a_store_keeps_no_rounds();
    let Outside {
        shelves,
        disk,
        other,
    } = outside;
    match kept_at_start(alloc, input.cubes.as_slice()) {
        Ok(kept) => {
            let Closed {
                finish,
                shelves,
                maker: _,
            } = play_kept(
                rt,
                alloc,
                starter,
                settings,
                false,
                &kept,
                input.scripts,
                shelves,
                NoStore,
                gate,
                sink,
            );
            Ended {
                finish,
                outside: Outside {
                    shelves,
                    disk,
                    other,
                },
            }
        }
        Err(_) => Ended {
            finish: finish_unplayed(alloc, Fault::NoMemory),
            outside: Outside {
                shelves,
                disk,
                other,
            },
        },
    }
}

// Runs over what the store keeps that was created or opened.
fn run_over_store<
    R: Threads + Wait + Sync,
    H: Shelf + Send + Drop,
    D: Disk + Send + Drop,
    K: Sink,
    G: Gate + Sync,
>(
    rt: &R,
    alloc: Global,
    starter: ThreadStarter,
    settings: Settings,
    opened: OpenedStore,
    scripts: Vec<Vec<Said>>,
    outside: Outside<H, D>,
    gate: &G,
    sink: &mut K,
) -> Ended<H, D>
    requires at { IsAt opened.store opened.kept (D.view outside.disk) (D.view outside.other) }
    requires kept { IsKeptByFile opened.kept }
    requires small { opened.kept.epoch ≤ 2 ^ 61 }
    requires some_shards { 1 ≤ settings.shards }
    requires few_shards { settings.shards ≤ 64 }
    requires some { 1 ≤ length scripts.items }
    requires few { length scripts.items ≤ 16 }
    requires said { AllByRecursion MayBeSaid scripts.items }
    requires shelves { length scripts.items ≤ length outside.shelves.items }
    ensures status { result.finish.status ≡ status_of result.finish.fault }
    ensures output { OutputRises result.finish.fault
        (K.fault_count sink.old) (K.fault_count sink.new) }
    ensures same { map H.told result.outside.shelves.items ≡ map H.told outside.shelves.items }
    ensures rounds { EndsInStore D.view opened.kept outside result.outside }
    ensures lost { LosesByFault D.view (disks_in outside) (disks_in result.outside)
        result.finish.journal.items }
    ensures ends { PlayedEnds H.told H.fault_count H.absence_count
        (λ run. KeepRecord D.view (disks_in outside) (disks_in outside)
        (disks_in result.outside) run)
        (λ journal. KeepRun D.view (disks_in outside) (disks_in outside)
        (disks_in result.outside) opened.kept settings.shards
        (length (map sentences_of scripts.items)) journal)
        true opened.kept settings.shards (unwrap_or settings.round_every 0) (map sentences_of scripts.items)
        outside.shelves.items result.outside.shelves.items result.finish
        (K.taken sink.old) (K.taken sink.new) result.finish.fault }
{
    a_store_keeps_rounds_of_its_core::<D>();
    a_store_keeps_the_record_at_every_moment::<D>();
    a_store_keeps_the_events_at_every_moment::<D>();
    let Outside {
        shelves,
        disk,
        other,
    } = outside;
    let OpenedStore { store, kept } = opened;
    let maker = StoredRounds {
        store,
        first: disk,
        second: other,
        alloc,
    };
    let Closed {
        finish,
        shelves,
        maker,
    } = play_kept(
        rt, alloc, starter, settings, true, &kept, scripts, shelves, maker, gate, sink,
    );
    let StoredRounds { first, second, .. } = maker;
    Ended {
        finish,
        outside: Outside {
            shelves,
            disk: first,
            other: second,
        },
    }
}

// Creates or opens the store, and runs over what it keeps.
fn run_with_store<
    R: Threads + Wait + Sync,
    H: Shelf + Send + Drop,
    D: Disk + Send + Drop,
    K: Sink,
    G: Gate + Sync,
>(
    rt: &R,
    alloc: Global,
    starter: ThreadStarter,
    settings: Settings,
    store: StoreName,
    input: RunInput,
    outside: Outside<H, D>,
    gate: &G,
    sink: &mut K,
) -> Ended<H, D>
    requires declared { AreDeclared input.cubes.items }
    requires some_shards { 1 ≤ settings.shards }
    requires few_shards { settings.shards ≤ 64 }
    requires some { 1 ≤ length input.scripts.items }
    requires few { length input.scripts.items ≤ 16 }
    requires said { AllByRecursion MayBeSaid input.scripts.items }
    requires shelves { length input.scripts.items ≤ length outside.shelves.items }
    requires first_synced { IsSynced (D.view outside.disk) }
    requires second_synced { IsSynced (D.view outside.other) }
    requires both { IsSome (D.view outside.disk).told ↔ IsSome (D.view outside.other).told }
    ensures status { result.finish.status ≡ status_of result.finish.fault }
    ensures output { OutputRises result.finish.fault
        (K.fault_count sink.old) (K.fault_count sink.new) }
    ensures same { map H.told result.outside.shelves.items ≡ map H.told outside.shelves.items }
    ensures ends { OpenedEnds D.view H.told H.fault_count H.absence_count (Some store)
        input.cubes.items settings.shards (unwrap_or settings.round_every 0)
        (map sentences_of input.scripts.items)
        outside result.outside (K.taken sink.old) (K.taken sink.new) result.finish }
{
    let Outside {
        shelves,
        mut disk,
        mut other,
    } = outside;
    match take_store(
        alloc,
        store.name.as_str(),
        store.is_new,
        input.cubes.as_slice(),
        &mut disk,
        &mut other,
    ) {
        Ok(opened) => run_over_store(
            rt,
            alloc,
            starter,
            settings,
            opened,
            input.scripts,
            Outside {
                shelves,
                disk,
                other,
            },
            gate,
            sink,
        ),
        Err(error) => Ended {
            finish: finish_unplayed(alloc, fault_of_store(error)),
            outside: Outside {
                shelves,
                disk,
                other,
            },
        },
    }
}

/// Runs scripts that were read over their cubes: over what the store keeps, if one is asked for.
pub(crate) fn run_input<
    R: Threads + Wait + Sync,
    H: Shelf + Send + Drop,
    D: Disk + Send + Drop,
    K: Sink,
    G: Gate + Sync,
>(
    rt: &R,
    alloc: Global,
    starter: ThreadStarter,
    settings: Settings,
    store: Option<StoreName>,
    input: RunInput,
    outside: Outside<H, D>,
    gate: &G,
    sink: &mut K,
) -> Ended<H, D>
    requires declared { AreDeclared input.cubes.items }
    requires some_shards { 1 ≤ settings.shards }
    requires few_shards { settings.shards ≤ 64 }
    requires some { 1 ≤ length input.scripts.items }
    requires few { length input.scripts.items ≤ 16 }
    requires said { AllByRecursion MayBeSaid input.scripts.items }
    requires shelves { length input.scripts.items ≤ length outside.shelves.items }
    requires first_synced { IsSynced (D.view outside.disk) }
    requires second_synced { IsSynced (D.view outside.other) }
    requires both { IsSome (D.view outside.disk).told ↔ IsSome (D.view outside.other).told }
    ensures status { result.finish.status ≡ status_of result.finish.fault }
    ensures output { OutputRises result.finish.fault
        (K.fault_count sink.old) (K.fault_count sink.new) }
    ensures same { map H.told result.outside.shelves.items ≡ map H.told outside.shelves.items }
    ensures ends { OpenedEnds D.view H.told H.fault_count H.absence_count store
        input.cubes.items settings.shards (unwrap_or settings.round_every 0)
        (map sentences_of input.scripts.items)
        outside result.outside (K.taken sink.old) (K.taken sink.new) result.finish }
{
    match store {
        Some(store) => {
            run_with_store(
                rt, alloc, starter, settings, store, input, outside, gate, sink,
            )
        }
        None => run_without_store(rt, alloc, starter, settings, input, outside, gate, sink),
    }
}
