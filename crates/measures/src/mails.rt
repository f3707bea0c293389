//! Jobs through a mail.

ghost use Rattle.std.specs.Prelude.{◌≡◌, ◌+◌, ◌%◌, ◌^◌, IfOk};
ghost use Rattle.mail_cell.specs.State.{new_mail};
ghost use Rattle.measures.specs.Checksums.{answers_sum};

use mail_cell::{Fetched, Mail, Taken};
use std::alloc::{AllocError, Global};
use timed_work::{Work, below, seeded};

/// How many clients the mail has.
const CLIENTS: u32 = 16;

/// How many jobs there are, and what is added to each.
#[derive(Drop)]
pub(crate) struct Deliver {
    jobs: u32,
    more: u32,
}

/// Posts a job of the client whose turn it is, takes it, replies with a number that is `more`, and fetches
/// the answer.
fn delivered(mail: &mut Mail<u64, u64>, job: u32, more: u32) -> u64
    requires { mail.old ≡ new_mail CLIENTS }
    ensures empty { mail.new ≡ new_mail CLIENTS }
    ensures answer { result ≡ (job + more) % 2 ^ 64 }
{
    mail.post(job % CLIENTS, u64::from(job));
    match mail.take() {
        Taken::Job { client, job } => {
            mail.reply(client, job.wrapping_add(u64::from(more)));
            match mail.fetch(client) {
                Fetched::Got(answer) => answer,
                Fetched::NotYet => 0,
            }
        }
        Taken::Empty => 0,
        Taken::Closed => 0,
    }
}

impl Work for Deliver {
    fn prepared(_alloc: Global, items: u32) -> Result<Deliver, AllocError> {
        let more = below(&mut seeded(), 1_000);
        Ok(Deliver { jobs: items, more })
    }

    /// The checksum is the sum of the answers.
    fn work(&mut self, alloc: Global) -> Result<u64, AllocError>
        ensures { IfOk result (λ sum. sum ≡ answers_sum self.old.jobs self.old.more) }
    {
        let mut mail = Mail::new(alloc, CLIENTS)?;
        let mut sum: u64 = 0;
        'jobs: for job in 0..self.jobs {
            let answer = delivered(&mut mail, job, self.more);
            sum = sum.wrapping_add(answer);
        }
        Ok(sum)
    }
}
