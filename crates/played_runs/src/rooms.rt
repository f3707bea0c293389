//! Memory that a run takes before its sessions begin.
ghost use Rattle.std.specs.Prelude.{◌≡◌, ◌≤◌, [], IfOk, length, map, vec_capacity};
ghost use Rattle.std.specs.List.{AllByRecursion};
ghost use Rattle.script_sentences.specs.GivenTexts.{MayBeSaid};
ghost use Rattle.played_runs.specs.ReadySessions.{IsReadyScript, script_ready, sentences_of};

use core_scripts::{PlayRoom, ScriptWork};
use cube_journal::Reply;
use script_sentences::Said;
use std::alloc::{AllocError, Global};

/// A script and its closing part, with room for the session that plays them.
#[derive(Drop)]
pub(crate) struct ReadyScript {
    pub(crate) script: Vec<Said>,
    pub(crate) closing: Vec<Said>,
    pub(crate) room: PlayRoom,
}

/// The scripts of a run, and lists with room for the works of its sessions and for their replies.
#[derive(Drop)]
pub(crate) struct RunRoom<'g, H, G> {
    pub(crate) scripts: Vec<ReadyScript>,
    pub(crate) works: Vec<ScriptWork<'g, H, G>>,
    pub(crate) replies: Vec<Vec<Reply>>,
}

// A script with room for its session. So many of its last texts are its closing part.
fn ready_script(
    alloc: Global,
    script: Vec<Said>,
    held_back: usize,
) -> Result<ReadyScript, AllocError>
    requires { MayBeSaid script }
    ensures ready { IfOk result IsReadyScript }
    ensures same { IfOk result (λ ready. script_ready ready ≡ sentences_of script) }
{
    let room = PlayRoom::new(alloc, script.len())?;
    let mut script = script;
    let first = script.len() - held_back.min(script.len());
    let closing = script.split_off(first)?;
    Ok(ReadyScript {
        script,
        closing,
        room,
    })
}

// Each script with room for its session. So many of the last texts of the first are its closing part.
fn ready_scripts(
    alloc: Global,
    scripts: Vec<Vec<Said>>,
    held_back: usize,
) -> Result<Vec<ReadyScript>, AllocError>
    requires { AllByRecursion MayBeSaid scripts.items }
    ensures ready { IfOk result (λ ready. AllByRecursion IsReadyScript ready.items) }
    ensures same { IfOk result (λ ready.
        map script_ready ready.items ≡ map sentences_of scripts.items) }
{
    let count = scripts.len();
    let mut left = scripts;
    let mut held_back = held_back;
    let mut ready = Vec::with_capacity(alloc, count)?;
    'scripts: for _done in 0..count {
        let script = ready_script(alloc, left.remove(0), held_back)?;
        held_back = 0;
        ready.push(script)?;
    }
    Ok(ready)
}

/// All the memory that a run of these scripts takes before its core opens. So many of the last texts of the first script
/// are its closing part. The only error is out of memory.
pub(crate) fn run_room<'g, H: Drop, G>(
    alloc: Global,
    scripts: Vec<Vec<Said>>,
    held_back: usize,
) -> Result<RunRoom<'g, H, G>, AllocError>
    requires { AllByRecursion MayBeSaid scripts.items }
    ensures ready { IfOk result (λ room. AllByRecursion IsReadyScript room.scripts.items) }
    ensures same { IfOk result (λ room.
        map script_ready room.scripts.items ≡ map sentences_of scripts.items) }
    ensures no_work { IfOk result (λ room. room.works.items ≡ []) }
    ensures for_works { IfOk result (λ room. length scripts.items ≤ vec_capacity room.works) }
    ensures no_reply { IfOk result (λ room. room.replies.items ≡ []) }
    ensures for_replies { IfOk result (λ room. length scripts.items ≤ vec_capacity room.replies) }
{
    let works = Vec::with_capacity(alloc, scripts.len())?;
    let replies = Vec::with_capacity(alloc, scripts.len())?;
    let scripts = ready_scripts(alloc, scripts, held_back)?;
    Ok(RunRoom {
        scripts,
        works,
        replies,
    })
}
