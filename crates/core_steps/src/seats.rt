//! A session takes its steps, by what it holds.
ghost use Rattle.std.specs.Prelude.{◌≡◌, ◌≤◌, IfSome, Some};
ghost use Rattle.small_core.specs.Openings.{BeginsAs};
ghost use Rattle.core_steps.specs.Seats.{IsSeated};
ghost use Rattle.core_steps.specs.StepAnswers.{MayAnswer, held_after};
ghost use Rattle.turn_board.specs.Passes.{callers_of};

use crate::begins::sessions_begin_on_a_core;
use crate::names::{NameAdded, find_name, insert_named};
use crate::plays::{HeldSnapshot, Step, StepAnswer, play};
use crate::seat::Seat;
use crate::traced::Traced;
use board_callers::CellCaller;
use core_program::CoreSize;
use linked_shards::ShardCells;
use small_core::{SESSIONS, SHARDS};
use std::alloc::Global;
use std::sync::Wait;
use turn_board::Board;

impl<P: CellCaller<ShardCells>> Seat<P> {
    /// The seat of a session that has made no call.
    pub fn new(caller: P, number: u32) -> Seat<P>
        requires some { 1 ≤ number }
        requires below { number ≤ 3 }
        requires begins { BeginsAs number (P.opening caller) (P.number caller) (P.own caller) }
        ensures caller { result.traced.caller ≡ caller }
        ensures sits { IsSeated result (P.opening result.traced.caller)
            (P.number result.traced.caller) (P.own result.traced.caller) }
    {
        sessions_begin_on_a_core();
        let size = CoreSize::new(SHARDS, SESSIONS);
        Seat {
            traced: Traced { caller },
            number,
            size,
            held: Some(HeldSnapshot::Nothing),
        }
    }

    /// Takes a step. None: an earlier step or this one failed.
    pub fn take_step<R: Wait>(
        &mut self,
        rt: &R,
        board: &Board<ShardCells>,
        cube: &str,
        step: Step,
        alloc: Global,
    ) -> Option<StepAnswer>
        requires board { P.calls_on board.now self.old.traced.caller }
        requires callers { 7 ≤ callers_of board.now }
        requires sits { IsSeated self.old (P.opening self.old.traced.caller)
            (P.number self.old.traced.caller) (P.own self.old.traced.caller) }
        ensures board { P.calls_on board.now self.new.traced.caller }
        ensures sits { IsSeated self.new (P.opening self.new.traced.caller)
            (P.number self.new.traced.caller) (P.own self.new.traced.caller) }
        ensures answers { IfSome result (λ answer. IfSome self.old.held
            (λ held. MayAnswer held step answer)) }
        ensures after { IfSome result (λ answer. IfSome self.old.held
            (λ held. self.new.held ≡ Some (held_after held answer))) }
    {
        let held = self.held.take()?;
        let played = play(
            rt,
            board,
            &mut self.traced,
            &self.size,
            self.number,
            cube,
            held,
            step,
            alloc,
        )?;
        self.held = Some(played.held);
        Some(played.answer)
    }

    /// Inserts the row of a name, outside of a transaction. None: an earlier step or this one failed.
    pub fn insert_name<R: Wait>(
        &mut self,
        rt: &R,
        board: &Board<ShardCells>,
        cube: &str,
        name: &str,
        alloc: Global,
    ) -> Option<NameAdded>
        requires board { P.calls_on board.now self.old.traced.caller }
        requires callers { 7 ≤ callers_of board.now }
        requires sits { IsSeated self.old (P.opening self.old.traced.caller)
            (P.number self.old.traced.caller) (P.own self.old.traced.caller) }
        ensures board { P.calls_on board.now self.new.traced.caller }
        ensures sits { IsSeated self.new (P.opening self.new.traced.caller)
            (P.number self.new.traced.caller) (P.own self.new.traced.caller) }
    {
        match self.held.take()? {
            HeldSnapshot::Nothing => {
                let added = insert_named(
                    rt,
                    board,
                    &mut self.traced,
                    &self.size,
                    self.number,
                    cube,
                    name,
                    alloc,
                )?;
                self.held = Some(HeldSnapshot::Nothing);
                Some(added)
            }
            HeldSnapshot::Writer(_) => None,
        }
    }

    /// Looks for a name, outside of a transaction. None: an earlier step or this one failed.
    pub fn find_name<R: Wait>(
        &mut self,
        rt: &R,
        board: &Board<ShardCells>,
        cube: &str,
        name: &str,
        alloc: Global,
    ) -> Option<Option<u32>>
        requires board { P.calls_on board.now self.old.traced.caller }
        requires callers { 7 ≤ callers_of board.now }
        requires sits { IsSeated self.old (P.opening self.old.traced.caller)
            (P.number self.old.traced.caller) (P.own self.old.traced.caller) }
        ensures board { P.calls_on board.now self.new.traced.caller }
        ensures sits { IsSeated self.new (P.opening self.new.traced.caller)
            (P.number self.new.traced.caller) (P.own self.new.traced.caller) }
    {
        match self.held.take()? {
            HeldSnapshot::Nothing => {
                let number = find_name(
                    rt,
                    board,
                    &mut self.traced,
                    &self.size,
                    self.number,
                    cube,
                    name,
                    alloc,
                )?;
                self.held = Some(HeldSnapshot::Nothing);
                Some(number)
            }
            HeldSnapshot::Writer(_) => None,
        }
    }

    /// Whoever called for it.
    pub fn into_caller(self) -> P
        ensures { result ≡ self.traced.caller }
    {
        let Seat {
            traced,
            number: _number,
            size: _size,
            held: _held,
        } = self;
        traced.into_caller()
    }
}
