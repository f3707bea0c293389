//! The answers of all shards to a delta, merged into one change.
ghost use Rattle.std.specs.Prelude.{◌≤◌, length, IfOk, OnOk};
ghost use Rattle.session_watches.specs.DeltaAnswers.{AddsBoth, AddsChange, AddsSaid, HasRoomForChange, HasRoomForSaid, HasRoomToMerge, HaveCompared, MergeAllChanges};

use agg_fold::Partial;
use cube_core::{JobAnswer, ShardAnswer};
use cube_values::BoundQuery;
use standing_query::Change;
use std::alloc::{AllocError, Global};

// All answers as one change. It is an error where a shard was out of memory, too.
pub(crate) fn merge_changes(
    query: &BoundQuery,
    answers: &[JobAnswer],
    alloc: Global,
) -> Result<Change, AllocError>
    requires few { length answers.now ≤ 64 }
    requires compared { HaveCompared query.now answers.now }
    ensures { IfOk result (MergeAllChanges query.now answers.now) }
{
    let mut whole = Change {
        came: Partial::new(alloc),
        went: Partial::new(alloc),
    };
    let mut left = answers;
    'answers: while let [answer, rest @ ..] = left {
        merge_answer(query, &mut whole, answer)?;
        left = rest;
    }
    Ok(whole)
}

// One answer more.
fn merge_answer(
    query: &BoundQuery,
    whole: &mut Change,
    answer: &JobAnswer,
) -> Result<(), AllocError>
    requires { HasRoomForChange query.now whole.old answer.now }
    ensures { OnOk result (AddsChange query.now answer.now whole.old whole.new) }
{
    match answer {
        JobAnswer::Shard(said) => merge_said(query, whole, said.answer()),
        _ => Err(AllocError),
    }
}

fn merge_said(query: &BoundQuery, whole: &mut Change, said: &ShardAnswer) -> Result<(), AllocError>
    requires { HasRoomForSaid query.now whole.old said.now }
    ensures { OnOk result (AddsSaid query.now said.now whole.old whole.new) }
{
    match said {
        ShardAnswer::Changed(change) => merge_both(query, whole, change.get()),
        _ => Err(AllocError),
    }
}

fn merge_both(query: &BoundQuery, whole: &mut Change, change: &Change) -> Result<(), AllocError>
    requires came { HasRoomToMerge query.now change.now.came.groups whole.old.came.groups }
    requires went { HasRoomToMerge query.now change.now.went.groups whole.old.went.groups }
    ensures { OnOk result (AddsBoth query.now change.now whole.old whole.new) }
{
    whole.came.merge(query, &change.came)?;
    whole.went.merge(query, &change.went)
}
