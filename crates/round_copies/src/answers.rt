//! What comes back, by the kind of the call.
ghost use Rattle.std.specs.Prelude.{◌≡◌, ℕ, map, IfOk};
ghost use Rattle.std.specs.Option.{option_map_or};
ghost use Rattle.core_program.specs.AnswersOfCalls.{DeskAnswers, NamesAnswers};
ghost use Rattle.core_cells.specs.declared.desk.DeskAnswer.TheVariants as answer;
ghost use Rattle.core_cells.specs.declared.desk.DeskCall.TheVariants as call;
ghost use Rattle.core_cells.specs.declared.names.NamesAnswer.TheVariants as told;
ghost use Rattle.core_cells.specs.declared.names.NamesCall.TheVariants as names;
ghost use Rattle.cube_core.specs.declared.jobs.JobAnswer.TheVariants as reply;
ghost use Rattle.round_copies.specs.CopyAnswers.{copy_answer};

use aosi_desk::Decls;
use core_cells::{DeskAnswer, NamesAnswer};
use cube_core::{JobAnswer, ShardAnswer};
use cube_rounds::RoundBricks;
use cube_values::Texts;
use std::alloc::{AllocError, Global};

// The cubes that the desk listed. None: it was out of memory.
pub(crate) fn cubes_in(said: DeskAnswer) -> Option<Decls>
    requires { (place : ℕ) × DeskAnswers (call.CubesFrom place) said }
    ensures { said ≡ option_map_or answer.Cubes result answer.NoMemory }
{
    match said {
        DeskAnswer::Cubes(cubes) => Some(cubes),
        DeskAnswer::NoMemory => None,
        _ => unreachable!(),
    }
}

// The names that a dictionary has from a place on. None: it was out of memory.
pub(crate) fn names_in(said: NamesAnswer) -> Option<Texts>
    requires { (cube dim number : ℕ) × NamesAnswers (names.CopyFrom cube dim number) said }
    ensures { said ≡ option_map_or told.Copied result told.NoMemory }
{
    match said {
        NamesAnswer::Copied(names) => Some(names),
        NamesAnswer::NoMemory => None,
        _ => unreachable!(),
    }
}

// What a shard copied. Whatever else it answered is no copy.
fn copy_in(said: JobAnswer) -> Result<RoundBricks, AllocError>
    ensures { IfOk result (λ copy. said ≡ copy_answer copy) }
{
    match said {
        JobAnswer::Shard(said) => copy_of_shard(said.into_answer()),
        JobAnswer::Flush(_) => Err(AllocError),
    }
}

fn copy_of_shard(said: ShardAnswer) -> Result<RoundBricks, AllocError>
    ensures { IfOk result (λ copy. copy_answer copy ≡ reply.Shard said) }
{
    match said {
        ShardAnswer::Copied(copy) => Ok(copy),
        _ => Err(AllocError),
    }
}

// What each shard copied, in their order. It is an error where one was out of memory.
pub(crate) fn copies_in(
    alloc: Global,
    answers: Vec<JobAnswer>,
) -> Result<Vec<RoundBricks>, AllocError>
    ensures { IfOk result (λ copies. answers.items ≡ map copy_answer copies.items) }
{
    let count = answers.len();
    let mut left = answers;
    let mut copies = Vec::with_capacity(alloc, count)?;
    'answers: for _ in 0..count {
        copies.push_reserved(copy_in(left.remove(0))?);
    }
    Ok(copies)
}
