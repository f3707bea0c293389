//! Reading the files of a run.

ghost use Rattle.std.specs.Prelude.{◌≡◌};
ghost use Rattle.run_files.specs.Readings.{AbsenceRises, FaultRises, IsBadAnswer, IsBadFor, IsRead, bad_in};
ghost use Rattle.run_files.specs.RunFiles.{CubesFile, ScriptFile};
ghost use Rattle.run_files.specs.Texts.{DeclaresGiven, HoldsScript, ShowsCubesText, ShowsScriptText};

use crate::bad_file::BadFile;
use crate::script::Script;
use cube_schema::Schema;
use cube_values::{CallError, Text};
use outside::{FileFault, Shelf, read_whole};
use sql_words::split;
use std::alloc::Global;

/// The most bytes of a cubes file.
pub const CUBES_BYTES: u64 = 1_048_576;

/// The most bytes of a script.
pub const SCRIPT_BYTES: u64 = 4_194_304;

// The cubes that a text declares.
fn declared_cubes(alloc: Global, text: &[u8]) -> Result<Vec<Schema>, CallError<BadFile>>
    ensures { ShowsCubesText text.now result }
{
    match cube_schema::read_cubes(alloc, text) {
        Ok(cubes) => Ok(cubes),
        Err(CallError::Fault(fault)) => Err(CallError::Fault(BadFile::Cubes { fault })),
        Err(CallError::NoMemory) => Err(CallError::NoMemory),
    }
}

// A script's text with the places of its statements.
fn script_of(alloc: Global, script: u64, bytes: Vec<u8>) -> Result<Script, CallError<BadFile>>
    ensures { ShowsScriptText script bytes.items result }
{
    match split(alloc, bytes.as_slice()) {
        Ok(pieces) => Ok(Script { bytes, pieces }),
        Err(CallError::Fault(fault)) => Err(CallError::Fault(BadFile::Script { script, fault })),
        Err(CallError::NoMemory) => Err(CallError::NoMemory),
    }
}

// What is wrong with a cubes file of this name that was not read.
fn bad_cubes(name: Text, fault: FileFault) -> BadFile
    ensures { IsBadFor (CubesFile name) fault result }
{
    match fault {
        FileFault::Absent => BadFile::Absent { name },
        FileFault::Failed => BadFile::ReadFailed { name },
        FileFault::TooLong { size } => BadFile::CubesTooLong { size },
    }
}

// What is wrong with a script of this number and name that was not read.
fn bad_script(script: u64, name: Text, fault: FileFault) -> BadFile
    ensures { IsBadFor (ScriptFile script name) fault result }
{
    match fault {
        FileFault::Absent => BadFile::Absent { name },
        FileFault::Failed => BadFile::ReadFailed { name },
        FileFault::TooLong { size } => BadFile::ScriptTooLong { script, size },
    }
}

// The answer for a cubes file of this name that was not read.
fn unread_cubes(name: Text, error: CallError<FileFault>) -> CallError<BadFile>
    ensures { IsBadAnswer (CubesFile name) error result }
{
    match error {
        CallError::Fault(fault) => CallError::Fault(bad_cubes(name, fault)),
        CallError::NoMemory => CallError::NoMemory,
    }
}

// The answer for a script of this number and name that was not read.
fn unread_script(script: u64, name: Text, error: CallError<FileFault>) -> CallError<BadFile>
    ensures { IsBadAnswer (ScriptFile script name) error result }
{
    match error {
        CallError::Fault(fault) => CallError::Fault(bad_script(script, name, fault)),
        CallError::NoMemory => CallError::NoMemory,
    }
}

/// The cubes that the cubes file of this name declares, or what is wrong with the file. Its size is asked
/// once, and where that is above `CUBES_BYTES` it is not read.
pub fn read_cubes<H: Shelf>(
    alloc: Global,
    shelf: &mut H,
    name: &str,
) -> Result<Vec<Schema>, CallError<BadFile>>
    ensures same { H.told shelf.new ≡ H.told shelf.old }
    ensures absences { AbsenceRises (bad_in result)
        (H.absence_count shelf.old) (H.absence_count shelf.new) }
    ensures faults { FaultRises (bad_in result)
        (H.fault_count shelf.old) (H.fault_count shelf.new) }
    ensures read { IsRead DeclaresGiven (H.told shelf.old)
        (H.call_list shelf.old) (H.call_list shelf.new) (CubesFile name.now) result }
{
    // The name is copied first, so that an absent file is never answered as want of memory.
    let own = Text::new(alloc, name)?;
    match read_whole(alloc, shelf, name, CUBES_BYTES) {
        Ok(bytes) => declared_cubes(alloc, bytes.as_slice()),
        Err(error) => Err(unread_cubes(own, error)),
    }
}

/// The script of this number and name with the places of its statements, or what is wrong with the file.
/// Its size is asked once, and where that is above `SCRIPT_BYTES` it is not read.
pub fn read_script<H: Shelf>(
    alloc: Global,
    shelf: &mut H,
    script: u64,
    name: &str,
) -> Result<Script, CallError<BadFile>>
    ensures same { H.told shelf.new ≡ H.told shelf.old }
    ensures absences { AbsenceRises (bad_in result)
        (H.absence_count shelf.old) (H.absence_count shelf.new) }
    ensures faults { FaultRises (bad_in result)
        (H.fault_count shelf.old) (H.fault_count shelf.new) }
    ensures read { IsRead HoldsScript (H.told shelf.old)
        (H.call_list shelf.old) (H.call_list shelf.new) (ScriptFile script name.now) result }
{
    let own = Text::new(alloc, name)?;
    match read_whole(alloc, shelf, name, SCRIPT_BYTES) {
        Ok(bytes) => script_of(alloc, script, bytes),
        Err(error) => Err(unread_script(script, own, error)),
    }
}
