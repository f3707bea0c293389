//! The cells, and the calls on them.

ghost use Rattle.cube_core.specs.CoreSteps.{CanTake, CoreStep};
ghost use Rattle.cube_core.specs.declared.cell.CoreCall.TheVariants as asked;

use crate::answered::AnsweredCall;
use crate::jobs::{Job, JobAnswer};
use crate::shard::{ShardCall, ShardCell};
use aosi_desk::Desk;
use core_cells::{
    DeskAnswer, DeskCall, MailAnswer, MailCall, NamesAnswer, NamesCall, call_desk, call_mail,
    call_names,
};
use mail_cell::Mail;
use names_dict::Dicts;
use std::alloc::Global;

/// A cell. What is large lies on the heap.
#[derive(Drop)]
pub enum CoreCell<S> {
    /// The desk, with the allocator for what it answers.
    Desk { desk: Desk, alloc: Global },
    Names(Dicts),
    Shard(S),
    Mail(Mail<Job, JobAnswer>),
}

/// A call on a cell.
#[derive(Drop)]
pub enum CoreCall {
    Desk(DeskCall),
    Names(NamesCall),
    Shard(ShardCall),
    Mail(MailCall<Job, JobAnswer>),
}

/// What a cell answers.
#[derive(Drop)]
pub enum CoreAnswer {
    Desk(DeskAnswer),
    Names(NamesAnswer),
    Shard(AnsweredCall),
    Mail(MailAnswer<Job, JobAnswer>),
}

// A call is compiled into its caller, so that it is not copied whole on its way to the cell.

#[inline(always)]
fn apply_to_desk<S: ShardCell>(cell: &mut CoreCell<S>, call: DeskCall) -> CoreAnswer
    requires { CanTake S.ShardCell.can cell.old (asked.Desk call) }
    ensures { CoreStep S.ShardCell.step cell.old (asked.Desk call) result cell.new }
{
    match cell {
        CoreCell::Desk { desk, alloc } => CoreAnswer::Desk(call_desk(*alloc, desk, call)),
        _ => unreachable!(),
    }
}

#[inline(always)]
fn apply_to_names<S: ShardCell>(cell: &mut CoreCell<S>, call: NamesCall) -> CoreAnswer
    requires { CanTake S.ShardCell.can cell.old (asked.Names call) }
    ensures { CoreStep S.ShardCell.step cell.old (asked.Names call) result cell.new }
{
    match cell {
        CoreCell::Names(names) => CoreAnswer::Names(call_names(names, call)),
        _ => unreachable!(),
    }
}

#[inline(always)]
fn apply_to_shard<S: ShardCell>(cell: &mut CoreCell<S>, call: ShardCall) -> CoreAnswer
    requires { CanTake S.ShardCell.can cell.old (asked.Shard call) }
    ensures { CoreStep S.ShardCell.step cell.old (asked.Shard call) result cell.new }
{
    match cell {
        CoreCell::Shard(shard) => CoreAnswer::Shard(shard.call(call)),
        _ => unreachable!(),
    }
}

#[inline(always)]
fn apply_to_mail<S: ShardCell>(cell: &mut CoreCell<S>, call: MailCall<Job, JobAnswer>) -> CoreAnswer
    requires { CanTake S.ShardCell.can cell.old (asked.Mail call) }
    ensures { CoreStep S.ShardCell.step cell.old (asked.Mail call) result cell.new }
{
    match cell {
        CoreCell::Mail(mail) => CoreAnswer::Mail(call_mail(mail, call)),
        _ => unreachable!(),
    }
}

/// Makes a call on a cell of its kind.
#[inline(always)]
pub fn apply<S: ShardCell>(cell: &mut CoreCell<S>, call: CoreCall) -> CoreAnswer
    requires { CanTake S.ShardCell.can cell.old call }
    ensures { CoreStep S.ShardCell.step cell.old call result cell.new }
{
    match call {
        CoreCall::Desk(call) => apply_to_desk(cell, call),
        CoreCall::Names(call) => apply_to_names(cell, call),
        CoreCall::Shard(call) => apply_to_shard(cell, call),
        CoreCall::Mail(call) => apply_to_mail(cell, call),
    }
}
