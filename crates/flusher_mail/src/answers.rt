//! What comes back from the flusher's calls on its mail.
ghost use Rattle.std.specs.Prelude.{◌≡◌, ℕ};
ghost use Rattle.core_program.specs.AnswersOfCalls.{CoreAnswers, MailAnswers};
ghost use Rattle.core_cells.specs.declared.mail.MailAnswer.TheVariants as got;
ghost use Rattle.core_cells.specs.declared.mail.MailCall.TheVariants as mail;
ghost use Rattle.cube_core.specs.declared.cell.CoreAnswer.TheVariants as answer;
ghost use Rattle.cube_core.specs.declared.cell.CoreCall.TheVariants as call;
ghost use Rattle.cube_core.specs.declared.jobs.JobAnswer.{JobAnswer};

use core_cells::MailAnswer;
use cube_core::{CoreAnswer, Job, JobAnswer};
use mail_cell::Taken;

// What was taken.
pub(crate) fn taken_in(came: CoreAnswer) -> Taken<Job>
    requires { CoreAnswers (call.Mail mail.Take) came }
    ensures { came ≡ answer.Mail (got.Taken result) }
{
    match came {
        CoreAnswer::Mail(came) => taken_in_mail(came),
        _ => unreachable!(),
    }
}

fn taken_in_mail(came: MailAnswer<Job, JobAnswer>) -> Taken<Job>
    requires { MailAnswers mail.Take came }
    ensures { came ≡ got.Taken result }
{
    match came {
        MailAnswer::Taken(taken) => taken,
        _ => unreachable!(),
    }
}

// A reply is done.
pub(crate) fn expect_replied(came: CoreAnswer)
    requires { (client : ℕ) × (said : JobAnswer)
        × CoreAnswers (call.Mail (mail.Reply client said)) came }
    ensures { came ≡ answer.Mail got.Done }
{
    match came {
        CoreAnswer::Mail(came) => expect_replied_mail(came),
        _ => unreachable!(),
    }
}

fn expect_replied_mail(came: MailAnswer<Job, JobAnswer>)
    requires { (client : ℕ) × (said : JobAnswer) × MailAnswers (mail.Reply client said) came }
    ensures { came ≡ got.Done }
{
    match came {
        MailAnswer::Done => {}
        _ => unreachable!(),
    }
}
