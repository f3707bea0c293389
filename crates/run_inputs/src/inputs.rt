//! The files of a run, in their order.

ghost use Rattle.std.specs.Prelude.{◌≡◌, ◌≤◌, All, IfOk, length};
ghost use Rattle.aosi_desk.specs.Desks.{AreCubes};
ghost use Rattle.cube_values.specs.Faults.{IfFault};
ghost use Rattle.outside.specs.Counts.{Rose};
ghost use Rattle.run_files.specs.Readings.{AbsenceRises, FaultRises, bad_in};
ghost use Rattle.run_inputs.specs.ReadInputs.{AreToldInOrder, GiveOverCubes, GiveRunInput, ReadingEnds};
ghost use Rattle.run_inputs.specs.ReadInputs.{files_of_run, script_files};

use crate::scripts::read_scripts;
use cube_language::MOST_STATEMENTS;
use cube_schema::Schema;
use cube_values::{CallError, Text};
use outside::Shelf;
use run_files::{BadFile, files_decide_their_end, read_cubes};
use script_sentences::Said;
use std::alloc::Global;
use std::thread::Threads;

/// What a run of scripts is given: its cubes, and what the texts of each script say.
#[derive(Drop)]
pub struct RunInput {
    pub cubes: Vec<Schema>,
    pub scripts: Vec<Vec<Said>>,
}

// What a run over these cubes is given by the scripts of these names.
fn read_over_cubes<R: Threads + Sync, H: Shelf>(
    rt: &R,
    alloc: Global,
    shelf: &mut H,
    declared: Vec<Schema>,
    scripts: &[Text],
) -> Result<RunInput, CallError<BadFile>>
    ensures same { H.told shelf.new ≡ H.told shelf.old }
    ensures faults { FaultRises (bad_in result)
        (H.fault_count shelf.old) (H.fault_count shelf.new) }
    ensures absences { AbsenceRises (bad_in result)
        (H.absence_count shelf.old) (H.absence_count shelf.new) }
    ensures ends { ReadingEnds (GiveOverCubes declared.items scripts.now) (H.told shelf.old)
        (H.call_list shelf.old) (H.call_list shelf.new) (script_files 1 scripts.now) result }
{
    match read_scripts(rt, alloc, shelf, scripts) {
        Ok(said) => Ok(RunInput {
            cubes: declared,
            scripts: said,
        }),
        Err(error) => Err(error),
    }
}

// Reads the cubes file and then the scripts.
fn read_in_turn<R: Threads + Sync, H: Shelf>(
    rt: &R,
    alloc: Global,
    shelf: &mut H,
    cubes: &str,
    scripts: &[Text],
) -> Result<RunInput, CallError<BadFile>>
    ensures same { H.told shelf.new ≡ H.told shelf.old }
    ensures faults { FaultRises (bad_in result)
        (H.fault_count shelf.old) (H.fault_count shelf.new) }
    ensures absences { AbsenceRises (bad_in result)
        (H.absence_count shelf.old) (H.absence_count shelf.new) }
    ensures ends { ReadingEnds (GiveRunInput cubes.now scripts.now) (H.told shelf.old)
        (H.call_list shelf.old) (H.call_list shelf.new)
        (files_of_run cubes.now scripts.now) result }
{
    match read_cubes(alloc, shelf, cubes) {
        Ok(declared) => read_over_cubes(rt, alloc, shelf, declared, scripts),
        Err(error) => Err(error),
    }
}

/// Reads the cubes file and then the scripts of these names, and parses them, up to the first file that is bad: no
/// file after that is read. The statements of a long script are parsed on all processors. The shelf's counts of absences and of faults rise just where that is the cause. Want of
/// memory may be answered at any time.
pub fn read_run_files<R: Threads + Sync, H: Shelf>(
    rt: &R,
    alloc: Global,
    shelf: &mut H,
    cubes: &str,
    scripts: &[Text],
) -> Result<RunInput, CallError<BadFile>>
    ensures same { H.told shelf.new ≡ H.told shelf.old }
    ensures faults { FaultRises (bad_in result)
        (H.fault_count shelf.old) (H.fault_count shelf.new) }
    ensures absences { AbsenceRises (bad_in result)
        (H.absence_count shelf.old) (H.absence_count shelf.new) }
    ensures cubes { IfOk result (λ input. AreCubes input.cubes.items) }
    ensures count { IfOk result (λ input. length input.scripts.items ≡ length scripts.now) }
    ensures few { IfOk result (λ input.
        All (λ said. length said.items ≤ MOST_STATEMENTS) input.scripts.items) }
    ensures ends { ReadingEnds (GiveRunInput cubes.now scripts.now) (H.told shelf.old)
        (H.call_list shelf.old) (H.call_list shelf.new)
        (files_of_run cubes.now scripts.now) result }
    // Files that the shelf tells and that are in order are not refused, unless it counted a fault.
    ensures served { AreToldInOrder (H.told shelf.old) (files_of_run cubes.now scripts.now)
        → (Rose (H.fault_count shelf.old) (H.fault_count shelf.new) → ⊥)
        → IfFault result (λ _. ⊥) }
{
    files_decide_their_end();
    read_in_turn(rt, alloc, shelf, cubes, scripts)
}
