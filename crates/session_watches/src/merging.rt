//! The answers of all shards to a query by a holder's reader, merged.
ghost use Rattle.std.specs.Prelude.{◌≤◌, length, IfOk, OnOk};
ghost use Rattle.session_groups.specs.AnswersInTurn.{AddsAnswer, AddsFound, HasRoomFor, HasRoomForAnswer, HaveFound, MergeAll};

use agg_fold::Partial;
use cube_core::{JobAnswer, ShardAnswer};
use cube_values::BoundQuery;
use std::alloc::{AllocError, Global};

// All answers as one partial. It is an error where a shard was out of memory, too.
pub(crate) fn merge_answers(
    query: &BoundQuery,
    answers: &[JobAnswer],
    alloc: Global,
) -> Result<Partial, AllocError>
    requires few { length answers.now ≤ 64 }
    requires found { HaveFound query.now answers.now }
    ensures { IfOk result (λ p. MergeAll query.now answers.now p.groups) }
{
    let mut whole = Partial::new(alloc);
    let mut left = answers;
    'answers: while let [answer, rest @ ..] = left {
        merge_answer(query, &mut whole, answer)?;
        left = rest;
    }
    Ok(whole)
}

// One answer more.
fn merge_answer(
    query: &BoundQuery,
    whole: &mut Partial,
    answer: &JobAnswer,
) -> Result<(), AllocError>
    requires { HasRoomForAnswer query.now whole.old.groups answer.now }
    ensures { OnOk result (AddsAnswer query.now answer.now whole.old.groups whole.new.groups) }
{
    match answer {
        JobAnswer::Shard(said) => merge_found(query, whole, said.answer()),
        _ => Err(AllocError),
    }
}

fn merge_found(
    query: &BoundQuery,
    whole: &mut Partial,
    said: &ShardAnswer,
) -> Result<(), AllocError>
    requires { HasRoomFor query.now whole.old.groups said.now }
    ensures { OnOk result (AddsFound query.now said.now whole.old.groups whole.new.groups) }
{
    match said {
        ShardAnswer::Scanned(found) => whole.merge(query, found.get()),
        _ => Err(AllocError),
    }
}
