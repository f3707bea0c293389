//! What comes back from a client's calls, by the kind of the call.
ghost use Rattle.std.specs.Prelude.{◌≡◌, ℕ};
ghost use Rattle.core_program.specs.AnswersOfCalls.{CoreAnswers, DeskAnswers, MailAnswers, NamesAnswers};
ghost use Rattle.core_cells.specs.declared.desk.DeskCall.{DeskCall};
ghost use Rattle.core_cells.specs.declared.mail.MailAnswer.TheVariants as got;
ghost use Rattle.core_cells.specs.declared.mail.MailCall.TheVariants as mail;
ghost use Rattle.core_cells.specs.declared.names.NamesCall.{NamesCall};
ghost use Rattle.cube_core.specs.declared.cell.CoreAnswer.TheVariants as answer;
ghost use Rattle.cube_core.specs.declared.cell.CoreCall.TheVariants as call;
ghost use Rattle.cube_core.specs.declared.jobs.Job.{Job};

use core_cells::{DeskAnswer, MailAnswer, NamesAnswer};
use cube_core::{CoreAnswer, Job, JobAnswer};
use mail_cell::Fetched;

// What the desk answered.
#[inline(always)]
pub(crate) fn desk_answer_in(came: CoreAnswer) -> DeskAnswer
    requires { (c : DeskCall) × CoreAnswers (call.Desk c) came }
    ensures { came ≡ answer.Desk result }
{
    match came {
        CoreAnswer::Desk(said) => said,
        _ => unreachable!(),
    }
}

// What the names answered.
#[inline(always)]
pub(crate) fn names_answer_in(came: CoreAnswer) -> NamesAnswer
    requires { (c : NamesCall) × CoreAnswers (call.Names c) came }
    ensures { came ≡ answer.Names result }
{
    match came {
        CoreAnswer::Names(said) => said,
        _ => unreachable!(),
    }
}

// A post is done.
#[inline(always)]
pub(crate) fn expect_posted(came: CoreAnswer)
    requires { (client : ℕ) × (job : Job) × CoreAnswers (call.Mail (mail.Post client job)) came }
    ensures { came ≡ answer.Mail got.Done }
{
    match came {
        CoreAnswer::Mail(came) => expect_posted_mail(came),
        _ => unreachable!(),
    }
}

#[inline(always)]
fn expect_posted_mail(came: MailAnswer<Job, JobAnswer>)
    requires { (client : ℕ) × (job : Job) × MailAnswers (mail.Post client job) came }
    ensures { came ≡ got.Done }
{
    match came {
        MailAnswer::Done => {}
        _ => unreachable!(),
    }
}

// A mail is closed.
#[inline(always)]
pub(crate) fn expect_closed(came: CoreAnswer)
    requires { CoreAnswers (call.Mail mail.Close) came }
    ensures { came ≡ answer.Mail got.Done }
{
    match came {
        CoreAnswer::Mail(came) => expect_closed_mail(came),
        _ => unreachable!(),
    }
}

#[inline(always)]
fn expect_closed_mail(came: MailAnswer<Job, JobAnswer>)
    requires { MailAnswers mail.Close came }
    ensures { came ≡ got.Done }
{
    match came {
        MailAnswer::Done => {}
        _ => unreachable!(),
    }
}

// What a fetch gave.
#[inline(always)]
pub(crate) fn fetched_in(came: CoreAnswer) -> Fetched<JobAnswer>
    requires { (client : ℕ) × CoreAnswers (call.Mail (mail.Fetch client)) came }
    ensures { came ≡ answer.Mail (got.Fetched result) }
{
    match came {
        CoreAnswer::Mail(came) => fetched_in_mail(came),
        _ => unreachable!(),
    }
}

#[inline(always)]
fn fetched_in_mail(came: MailAnswer<Job, JobAnswer>) -> Fetched<JobAnswer>
    requires { (client : ℕ) × MailAnswers (mail.Fetch client) came }
    ensures { came ≡ got.Fetched result }
{
    match came {
        MailAnswer::Fetched(fetched) => fetched,
        _ => unreachable!(),
    }
}
