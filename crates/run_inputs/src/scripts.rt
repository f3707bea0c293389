//! The scripts, one after the other.

ghost use Rattle.std.specs.Prelude.{◌≡◌};
ghost use Rattle.run_files.specs.Readings.{AbsenceRises, FaultRises, IsRead, bad_in};
ghost use Rattle.run_files.specs.RunFiles.{ScriptFile};
ghost use Rattle.run_inputs.specs.ReadInputs.{GiveScripts, ReadingEnds, SaysGiven, ShowsScriptSaid, script_files};
ghost use Rattle.sql_words.specs.Texts.{AreTextsAt};

use crate::parsing::script_said;
use cube_values::{CallError, Text};
use outside::Shelf;
use run_files::{BadFile, Script, read_script};
use script_sentences::Said;
use std::alloc::Global;
use std::thread::Threads;

// What a script that was read says, or want of memory.
fn said_of<R: Threads + Sync>(
    rt: &R,
    alloc: Global,
    script: &Script,
) -> Result<Vec<Said>, CallError<BadFile>>
    requires texts { AreTextsAt script.now.bytes.items script.now.pieces }
    ensures { ShowsScriptSaid script.now.bytes.items script.now.pieces result }
{
    match script_said(rt, alloc, script) {
        Ok(said) => Ok(said),
        Err(_) => Err(CallError::NoMemory),
    }
}

// What the script of a number and a name says.
fn read_one<R: Threads + Sync, H: Shelf>(
    rt: &R,
    alloc: Global,
    shelf: &mut H,
    number: u64,
    name: &str,
) -> Result<Vec<Said>, CallError<BadFile>>
    ensures same { H.told shelf.new ≡ H.told shelf.old }
    ensures faults { FaultRises (bad_in result)
        (H.fault_count shelf.old) (H.fault_count shelf.new) }
    ensures absences { AbsenceRises (bad_in result)
        (H.absence_count shelf.old) (H.absence_count shelf.new) }
    ensures read { IsRead SaysGiven (H.told shelf.old)
        (H.call_list shelf.old) (H.call_list shelf.new) (ScriptFile number name.now) result }
{
    match read_script(alloc, shelf, number, name) {
        Ok(script) => said_of(rt, alloc, &script),
        Err(error) => Err(error),
    }
}

/// What each of the scripts of these names says, up to the first that is bad.
pub(crate) fn read_scripts<R: Threads + Sync, H: Shelf>(
    rt: &R,
    alloc: Global,
    shelf: &mut H,
    names: &[Text],
) -> Result<Vec<Vec<Said>>, CallError<BadFile>>
    ensures same { H.told shelf.new ≡ H.told shelf.old }
    ensures faults { FaultRises (bad_in result)
        (H.fault_count shelf.old) (H.fault_count shelf.new) }
    ensures absences { AbsenceRises (bad_in result)
        (H.absence_count shelf.old) (H.absence_count shelf.new) }
    ensures ends { ReadingEnds (GiveScripts names.now) (H.told shelf.old)
        (H.call_list shelf.old) (H.call_list shelf.new) (script_files 1 names.now) result }
{
    let mut scripts = Vec::new(alloc);
    'names: for (i, name) in names.iter().enumerate() {
        let said = match read_one(rt, alloc, shelf, i as u64 + 1, name.as_str()) {
            Ok(said) => said,
            Err(error) => return Err(error),
        };
        scripts.push(said)?;
    }
    Ok(scripts)
}
