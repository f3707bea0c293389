//! The mail.
ghost use Rattle.std.specs.Prelude.{◌≡◌, ℕ, ◌<◌, ◌≤◌, length, replicate, IfOk};
ghost use Rattle.mail_cell.specs.State.{new_mail, place_of, IsSound};
ghost use Rattle.mail_cell.specs.Steps.{after_post, taken, after_take, after_reply, fetched, after_fetch, after_close, ComesFromWaiting};
ghost use Rattle.mail_cell.specs.declared.place.Place.TheVariants.{Idle, Out};

use crate::answer::{Fetched, Taken};
use crate::place::{Place, Post};
use std::alloc::{AllocError, Global};
use std::collections::VecDeque;
use std::marker::Model;
use std::mem;

#[cfg(test)]
mod tests;

/// How many clients a mail has at most.
pub const MOST_CLIENTS: u32 = 64;

/// A queue of jobs with one place per client, where `J` is a job and `A` an answer to one.
///
/// A client posts a job, someone takes it and replies, and the client fetches the answer. Until then
/// the client posts no other job, so all memory is taken by `new`, and no other call takes any. The mail
/// itself is a few words, and what it holds lies on the heap.
/// Contracts see a mail as the jobs that are posted, the place of each client, and whether it is closed.
#[derive(Debug, Drop)]
pub struct Mail<J, A> {
    posted: VecDeque<Post<J>>,
    places: Vec<Place<A>>,
    closed: bool,
}

impl<J, A> Model for Mail<J, A> {
    ghost use Rattle.std.specs.Prelude.{◌≤◌, length};
    ghost use Rattle.std.specs.VecDeque.{deque_capacity};
    ghost use Rattle.mail_cell.specs.State.{MailState, mail_state, IsSound};

    ghost Value = { MailState J A };

    ghost view = { λ m. mail_state m.posted.items m.places.items m.closed };

    ghost invariant = { λ m. IsSound (mail_state m.posted.items m.places.items m.closed)
        × (length m.places.items ≤ deque_capacity m.posted) };
}

impl<J, A: Drop> Mail<J, A> {
    /// An open mail in which no client has anything. The only error is want of memory.
    pub fn new(alloc: Global, clients: u32) -> Result<Mail<J, A>, AllocError>
        requires some { 1 ≤ clients }
        requires most { clients ≤ MOST_CLIENTS }
        ensures { IfOk result (λ mail. mail ≡ new_mail clients) }
    {
        let places = idle_places(alloc, clients)?;
        Ok(Mail {
            posted: VecDeque::with_capacity(alloc, places.len())?,
            places,
            closed: false,
        })
    }

    /// Puts a client's job behind those that are posted. The client has no job posted or out, and no answer
    /// that it has not fetched.
    #[inline(always)]
    pub fn post(&mut self, client: u32, job: J)
        requires known { client < length self.old.places }
        requires idle { place_of self.old client ≡ Idle }
        ensures { self.new ≡ after_post self.old client job }
    {
        self.places[client as usize] = Place::Waiting;
        self.posted.push_back_reserved(Post { client, job });
    }

    /// Takes the job that was posted first of those that are posted. Where there is none, the answer is
    /// `Empty` of an open mail and `Closed` of a closed one.
    #[inline(always)]
    pub fn take(&mut self) -> Taken<J>
        ensures taken { result ≡ taken self.old.posted self.old.closed }
        ensures after { self.new ≡ after_take self.old }
        ensures waited { ComesFromWaiting self.old result }
    {
        match self.posted.pop_front() {
            Some(Post { client, job }) => {
                self.places[client as usize] = Place::Out;
                Taken::Job { client, job }
            }
            None if self.closed => Taken::Closed,
            None => Taken::Empty,
        }
    }

    /// Keeps the answer to a client's job for that client. The job is out.
    #[inline(always)]
    pub fn reply(&mut self, client: u32, answer: A)
        requires known { client < length self.old.places }
        requires out { place_of self.old client ≡ Out }
        ensures { self.new ≡ after_reply self.old client answer }
    {
        self.places[client as usize] = Place::Answered(answer);
    }

    /// Takes the answer that is kept for a client. It is `NotYet` where none is.
    #[inline(always)]
    pub fn fetch(&mut self, client: u32) -> Fetched<A>
        requires { client < length self.old.places }
        ensures fetched { result ≡ fetched (place_of self.old client) }
        ensures after { self.new ≡ after_fetch self.old client }
    {
        let place = &mut self.places[client as usize];
        match mem::replace(place, Place::Idle) {
            Place::Answered(answer) => Fetched::Got(answer),
            other => {
                *place = other;
                Fetched::NotYet
            }
        }
    }

    /// Closes the mail. Its jobs and answers stay; where no job is posted, `take` then gives `Closed`.
    pub fn close(&mut self)
        ensures { self.new ≡ after_close self.old }
    {
        self.closed = true;
    }

    /// A law: each client whose place is `Waiting` has one job posted, the others have none, and no other
    /// job is posted.
    pub fn posted_jobs_wait(&self)
        ensures { IsSound self.now }
    {
        let _closed = self.closed;
    }
}

// So many places in which there is nothing.
fn idle_places<A: Drop>(alloc: Global, clients: u32) -> Result<Vec<Place<A>>, AllocError>
    ensures { IfOk result (λ places. places.items ≡ replicate clients Idle) }
{
    let mut places = Vec::with_capacity(alloc, clients as usize)?;
    for _client in 0..clients {
        places.push(Place::Idle)?;
    }
    Ok(places)
}
