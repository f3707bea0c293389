//! The calls on a mail.

ghost use Rattle.core_cells.specs.MailCalls.{CanCallMail, MailStep};

use mail_cell::{Fetched, Mail, Taken};

/// A call on a mail, where `J` is a job and `A` an answer to one.
#[derive(Debug, Drop)]
pub enum MailCall<J, A> {
    /// Puts a client's job behind those that are posted.
    Post { client: u32, job: J },
    /// Takes the job that was posted first.
    Take,
    /// Keeps the answer to a client's job for that client.
    Reply { client: u32, answer: A },
    /// Takes the answer that is kept for a client.
    Fetch { client: u32 },
    /// Closes the mail.
    Close,
}

/// What a mail answers.
#[derive(Debug, Drop)]
pub enum MailAnswer<J, A> {
    Done,
    Taken(Taken<J>),
    Fetched(Fetched<A>),
}

/// Makes a call on a mail.
#[inline(always)]
pub fn call_mail<J, A: Drop>(mail: &mut Mail<J, A>, call: MailCall<J, A>) -> MailAnswer<J, A>
    requires { CanCallMail mail.old call }
    ensures { MailStep mail.old call result mail.new }
{
    match call {
        MailCall::Post { client, job } => {
            mail.post(client, job);
            MailAnswer::Done
        }
        MailCall::Take => MailAnswer::Taken(mail.take()),
        MailCall::Reply { client, answer } => {
            mail.reply(client, answer);
            MailAnswer::Done
        }
        MailCall::Fetch { client } => MailAnswer::Fetched(mail.fetch(client)),
        MailCall::Close => {
            mail.close();
            MailAnswer::Done
        }
    }
}
