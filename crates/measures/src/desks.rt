//! Sessions at a desk, one after the other.

ghost use Rattle.std.specs.Prelude.{◌≡◌, ◌+◌, ◌≤◌, [], IfOk, OnOk};
ghost use Rattle.aosi_desk.specs.State.{state_of};

use aosi_desk::{Desk, MOST_SESSIONS};
use cube_journal::one_more_entry;
use std::alloc::{AllocError, Global};
use timed_work::Work;

/// How many entries a turn adds to the journal.
const ENTRIES: u32 = 4;

/// A desk at which no snapshot is open, and how many turns sessions take.
#[derive(Drop)]
pub(crate) struct Turns {
    desk: Desk,
    turns: u32,
    ghost idle: { (state_of desk.register).snapshots ≡ [] },
    ghost sessions: { desk.register.sessions ≡ 16 },
}

/// Opens the writer of a session and commits it.
#[tactic(auto, using(crate::proofs::Idle::free, crate::proofs::Idle::is_writing, crate::proofs::Idle::is_idle, crate::proofs::Idle::ec_rises))]
fn write(desk: &mut Desk, session: u32) -> Result<(), AllocError>
    requires low { 1 ≤ session }
    requires high { session ≤ desk.old.register.sessions }
    requires idle { (state_of desk.old.register).snapshots ≡ [] }
    ensures idle { (state_of desk.new.register).snapshots ≡ [] }
    ensures sessions { desk.new.register.sessions ≡ desk.old.register.sessions }
    ensures ec { OnOk result
        ((state_of desk.new.register).ec ≡ (state_of desk.old.register).ec + 1) }
{
    one_more_entry();
    let _snapshot = desk.open_write(session, 1)?;
    desk.commit(session, 2);
    Ok(())
}

/// Opens the reader of a session and closes it.
#[tactic(auto, using(crate::proofs::Idle::free, crate::proofs::Idle::is_reading, crate::proofs::Idle::is_idle_again, crate::proofs::Idle::ec_stays))]
fn read(desk: &mut Desk, session: u32) -> Result<(), AllocError>
    requires low { 1 ≤ session }
    requires high { session ≤ MOST_SESSIONS }
    requires idle { (state_of desk.old.register).snapshots ≡ [] }
    ensures idle { (state_of desk.new.register).snapshots ≡ [] }
    ensures sessions { desk.new.register.sessions ≡ desk.old.register.sessions }
    ensures ec { OnOk result ((state_of desk.new.register).ec ≡ (state_of desk.old.register).ec) }
{
    one_more_entry();
    let _snapshot = desk.open_read(session, 3)?;
    desk.close_read(session, 4);
    Ok(())
}

/// Sessions take so many turns, one after the other.
fn take_turns(desk: &mut Desk, turns: u32) -> Result<(), AllocError>
    requires idle { (state_of desk.old.register).snapshots ≡ [] }
    requires sessions { desk.old.register.sessions ≡ MOST_SESSIONS }
    ensures idle { (state_of desk.new.register).snapshots ≡ [] }
    ensures sessions { desk.new.register.sessions ≡ MOST_SESSIONS }
    ensures ec { OnOk result
        ((state_of desk.new.register).ec ≡ (state_of desk.old.register).ec + turns) }
{
    'turns: for turn in 0..turns {
        let session = turn % MOST_SESSIONS + 1;
        write(desk, session)?;
        read(desk, session)?;
    }
    Ok(())
}

impl Work for Turns {
    fn prepared(alloc: Global, items: u32) -> Result<Turns, AllocError> {
        Ok(Turns {
            desk: Desk::new(alloc, MOST_SESSIONS, &[], 0)?,
            turns: items / ENTRIES,
        })
    }

    /// The checksum is EC, which rises by one in each turn.
    fn work(&mut self, _alloc: Global) -> Result<u64, AllocError>
        ensures { IfOk result (λ sum. sum ≡ (state_of self.old.desk.register).ec + self.old.turns) }
    {
        take_turns(&mut self.desk, self.turns)?;
        Ok(self.desk.counters().ec)
    }
}
