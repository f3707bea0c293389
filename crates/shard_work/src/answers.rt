//! What comes back from a worker's calls, by the kind of the call.
ghost use Rattle.std.specs.Prelude.{◌≡◌, ℕ};
ghost use Rattle.core_program.specs.AnswersOfCalls.{CoreAnswers, MailAnswers};
ghost use Rattle.core_cells.specs.declared.mail.MailAnswer.TheVariants as got;
ghost use Rattle.core_cells.specs.declared.mail.MailCall.TheVariants as mail;
ghost use Rattle.core_program.specs.Workers.{IsShardWork};
ghost use Rattle.cube_core.specs.declared.cell.CoreAnswer.TheVariants as answer;
ghost use Rattle.cube_core.specs.declared.cell.CoreCall.TheVariants as call;
ghost use Rattle.cube_core.specs.declared.jobs.JobAnswer.{JobAnswer};
ghost use Rattle.cube_core.specs.declared.jobs.Work.TheVariants as work;
ghost use Rattle.cube_core.specs.declared.shard.ShardCall.{ShardCall};

use core_cells::MailAnswer;
use cube_core::{AnsweredCall, CoreAnswer, Job, JobAnswer, ShardCall, Work};
use mail_cell::Taken;

// What was taken.
#[inline(always)]
pub(crate) fn taken_in(came: CoreAnswer) -> Taken<Job>
    requires { CoreAnswers (call.Mail mail.Take) came }
    ensures { came ≡ answer.Mail (got.Taken result) }
{
    match came {
        CoreAnswer::Mail(came) => taken_in_mail(came),
        _ => unreachable!(),
    }
}

#[inline(always)]
fn taken_in_mail(came: MailAnswer<Job, JobAnswer>) -> Taken<Job>
    requires { MailAnswers mail.Take came }
    ensures { came ≡ got.Taken result }
{
    match came {
        MailAnswer::Taken(taken) => taken,
        _ => unreachable!(),
    }
}

// What the shard answered.
#[inline(always)]
pub(crate) fn shard_answer_in(came: CoreAnswer) -> AnsweredCall
    requires { (c : ShardCall) × CoreAnswers (call.Shard c) came }
    ensures { came ≡ answer.Shard result }
{
    match came {
        CoreAnswer::Shard(said) => said,
        _ => unreachable!(),
    }
}

// A reply is done.
#[inline(always)]
pub(crate) fn expect_done(came: CoreAnswer)
    requires { (client : ℕ) × (said : JobAnswer)
        × CoreAnswers (call.Mail (mail.Reply client said)) came }
    ensures { came ≡ answer.Mail got.Done }
{
    match came {
        CoreAnswer::Mail(came) => expect_done_mail(came),
        _ => unreachable!(),
    }
}

#[inline(always)]
fn expect_done_mail(came: MailAnswer<Job, JobAnswer>)
    requires { (client : ℕ) × (said : JobAnswer) × MailAnswers (mail.Reply client said) came }
    ensures { came ≡ got.Done }
{
    match came {
        MailAnswer::Done => {}
        _ => unreachable!(),
    }
}

// The call that a job for a shard asks for.
#[inline(always)]
pub(crate) fn shard_call_in(asked: Work) -> ShardCall
    requires { IsShardWork asked }
    ensures { asked ≡ work.Shard result }
{
    match asked {
        Work::Shard(c) => c,
        Work::Flush => unreachable!(),
    }
}
