//! A mail of two clients step by step, and a mail of 64 clients against plain lists.
ghost use Rattle.std.specs.Prelude.{◌≡◌, ◌<◌, length, IsTrue};
ghost use Rattle.mail_cell.specs.State.{place_of};
ghost use Rattle.mail_cell.specs.declared.place.Place.TheVariants.{Idle, Out};

use super::*;
use std::mem::size_of;
use std::test::Fail;

impl<J, A: Drop> Mail<J, A> {
    fn has(&self, client: u32) -> bool
        ensures { IsTrue result → client < length self.now.places }
    {
        (client as usize) < self.places.len()
    }

    fn is_idle(&self, client: u32) -> bool
        ensures known { IsTrue result → client < length self.now.places }
        ensures idle { IsTrue result → place_of self.now client ≡ Idle }
    {
        matches!(self.places.get(client as usize), Some(Place::Idle))
    }

    fn is_out(&self, client: u32) -> bool
        ensures known { IsTrue result → client < length self.now.places }
        ensures out { IsTrue result → place_of self.now client ≡ Out }
    {
        matches!(self.places.get(client as usize), Some(Place::Out))
    }
}

#[test]
fn mail_of_two(rt: HostRuntime) -> Result<(), Fail> {
    let mut mail: Mail<u64, u8> = Mail::new(rt.alloc(), 2)?;
    mail.post(0, 70);
    mail.post(1, 71);
    assert_eq!(rt; mail.take(), Taken::Job { client: 0, job: 70 });
    assert_eq!(rt; mail.fetch(0), Fetched::NotYet);
    mail.reply(0, 9);
    assert_eq!(rt; mail.fetch(0), Fetched::Got(9));
    assert_eq!(rt; mail.take(), Taken::Job { client: 1, job: 71 });
    assert_eq!(rt; mail.take(), Taken::Empty);
    mail.close();
    assert_eq!(rt; mail.take(), Taken::Closed);
    Ok(())
}

#[test]
fn a_few_words_whatever_it_holds(rt: HostRuntime) {
    assert!(rt; size_of::<Mail<[u64; 500], [u64; 500]>>() <= 96);
}

// A mail as plain lists: the jobs posted, the clients whose job is out, and the answers held.
#[derive(Drop)]
struct Plain {
    posted: Vec<(u32, u64)>,
    out: Vec<u32>,
    held: Vec<(u32, u64)>,
    closed: bool,
}

impl Plain {
    fn new(alloc: Global) -> Plain {
        Plain {
            posted: Vec::new(alloc),
            out: Vec::new(alloc),
            held: Vec::new(alloc),
            closed: false,
        }
    }

    fn is_idle(&self, client: u32) -> bool {
        !self.posted.iter().any(|post| post.0 == client)
            && !self.out.contains(&client)
            && !self.held.iter().any(|answer| answer.0 == client)
    }

    fn take(&mut self) -> Result<Taken<u64>, AllocError> {
        if self.posted.is_empty() {
            return Ok(if self.closed {
                Taken::Closed
            } else {
                Taken::Empty
            });
        }
        let (client, job) = self.posted.remove(0);
        self.out.push(client)?;
        Ok(Taken::Job { client, job })
    }

    fn fetch(&mut self, client: u32) -> Fetched<u64> {
        match self.held.iter().position(|answer| answer.0 == client) {
            Some(at) => Fetched::Got(self.held.remove(at).1),
            None => Fetched::NotYet,
        }
    }
}

fn next_seed(seed: u64) -> u64 {
    seed.wrapping_mul(6_364_136_223_846_793_005)
        .wrapping_add(1_442_695_040_888_963_407)
}

#[test]
fn sixty_four_clients(rt: HostRuntime) -> Result<(), Fail> {
    let mut mail: Mail<u64, u64> = Mail::new(rt.alloc(), MOST_CLIENTS)?;
    let mut plain = Plain::new(rt.alloc());
    let mut seed = 20_160_905;
    let mut jobs = 0u64;
    let mut empty = 0u64;
    let mut closed = 0u64;
    for step in 0..8_000u64 {
        seed = next_seed(seed);
        let client = ((seed >> 33) % 64) as u32;
        let filling = step / 500 % 2 == 0;
        match (seed >> 43) % 8 {
            0..3 if filling => {
                if plain.is_idle(client) {
                    assert!(rt; mail.is_idle(client), "post at step {step}");
                    mail.post(client, step);
                    plain.posted.push((client, step))?;
                }
            }
            0..4 => {
                let taken = mail.take();
                match taken {
                    Taken::Job { .. } => jobs = jobs.wrapping_add(1),
                    Taken::Empty => empty = empty.wrapping_add(1),
                    Taken::Closed => closed = closed.wrapping_add(1),
                }
                assert_eq!(rt; taken, plain.take()?, "take at step {step}");
            }
            4 => {
                if !plain.out.is_empty() {
                    let at = client as usize % plain.out.len();
                    let client = plain.out.remove(at);
                    assert!(rt; mail.is_out(client), "reply at step {step}");
                    mail.reply(client, step);
                    plain.held.push((client, step))?;
                }
            }
            _ => {
                assert!(rt; mail.has(client));
                let fetched = mail.fetch(client);
                assert_eq!(rt; fetched, plain.fetch(client), "fetch at step {step}");
            }
        }
        if step == 7_000 {
            mail.close();
            plain.closed = true;
        }
    }
    // The ring of 64 slots was gone round several times, and each answer of `take` was met.
    assert!(rt; jobs > 320 && empty > 0 && closed > 0);
    Ok(())
}
