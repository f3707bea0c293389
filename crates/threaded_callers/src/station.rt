//! Works that are lent out: a worker leaves its work at a station, and whoever has time does a step of it.
ghost use Rattle.std.specs.Prelude.{◌≡◌, ℕ, ◌+◌, Bool, Some, IfOk, IfSome, false, slice_get};
ghost use Rattle.threaded_callers.specs.Stations.{IsLent, IsListed, done_so};
ghost use Rattle.threaded_callers.specs.Tasks.{IsDoneFrom, IsDoneSoFar, IsWorked};

use crate::task::Task;
use crate::work::StepWork;
use std::marker::{Brand, Model, PhantomData};
use std::sync::{Mutex, Wait};
use turn_board::{Board, Cells};

/// What is known at all stations of a run: the board, the works that are lent, the first by its place, and the number
/// of the caller that does the first. Each run picks it.
pub(crate) trait Roster<C, T, Q, A, K> {
    ghost use Rattle.std.specs.Prelude.{ℕ, List, Option};
    ghost use Rattle.turn_board.specs.declared.board.Board.{Board};

    ghost board: { Option (Board C T Q A) };

    ghost works: { List K };

    ghost from: { ℕ };
}

impl<C, T, Q, A, K> Roster<C, T, Q, A, K> for Brand {
    ghost use Rattle.std.specs.Prelude.{None, []};

    ghost board = { None };

    ghost works = { [] };

    ghost from = { 0 };
}

/// A work that is lent out, and whether it is over.
#[derive(Drop)]
pub(crate) struct Station<C: Cells, K: StepWork<C>, L: Roster<C, C::Cell, C::Call, C::Answer, K>> {
    place: usize,
    over: bool,
    task: Task<C, K>,
    roster: PhantomData<L>,
}

impl<C: Cells, K: StepWork<C>, L: Roster<C, C::Cell, C::Call, C::Answer, K>> Model
    for Station<C, K, L> {
    ghost Value = { Bool };

    ghost view = { λ s. s.over };

    ghost invariant = { λ s. IsLent K.may_begin K.so_far K.has_done L.board L.works L.from s.place s.over
        s.task };
}

/// Where a work stands while nobody is at it.
pub(crate) type Slot<C, K, L> = Mutex<Option<Station<C, K, L>>>;

// Does a step of the work of a task.
fn step_task<C: Cells, R: Wait, K: StepWork<C>>(
    rt: &R,
    board: &Board<C>,
    task: &mut Task<C, K>,
) -> bool
    requires begun { IsDoneSoFar K.may_begin K.so_far board.now task.old }
    ensures { (number : ℕ) (first : K)
        → IsDoneFrom K.may_begin K.so_far board.now number first task.old
        → IsDoneFrom K.may_begin (done_so K.so_far K.has_done result) board.now number first
        task.new }
{
    match &mut task.pass {
        Some(pass) => task.work.step(rt, board, pass),
        None => unreachable!(),
    }
}

impl<C: Cells, K: StepWork<C>, L: Roster<C, C::Cell, C::Call, C::Answer, K>> Station<C, K, L> {
    // A work that may begin, at its station.
    fn of(_board: &Board<C>, place: usize, task: Task<C, K>) -> Station<C, K, L>
        requires board { L.board ≡ Some _board.now }
        requires listed { IsListed K.may_begin _board.now L.works L.from place task }
        ensures { result ≡ false }
    {
        Station {
            place,
            over: false,
            task,
            roster: PhantomData,
        }
    }

    // The station, after a step of its work where that is not over.
    fn step<R: Wait>(self, rt: &R, board: &Board<C>) -> Station<C, K, L>
        requires board { L.board ≡ Some board.now }
    {
        if self.over {
            return self;
        }
        let Station {
            place,
            over: _,
            task,
            roster: _,
        } = self;
        let mut task = task;
        let over = step_task(rt, board, &mut task);
        Station {
            place,
            over,
            task,
            roster: PhantomData,
        }
    }

    // The task, where its work is over and it is the one of this place. Else the station is given back.
    fn into_done(self, _board: &Board<C>, place: usize) -> Result<Task<C, K>, Station<C, K, L>>
        requires board { L.board ≡ Some _board.now }
        ensures { IfOk result (λ task. (first : K) × (slice_get L.works place ≡ Some first)
            × IsDoneFrom K.may_begin K.has_done _board.now (L.from + place) first task) }
    {
        let Station {
            place: own,
            over,
            task,
            roster: _,
        } = self;
        if over && own == place {
            Ok(task)
        } else {
            Err(Station {
                place: own,
                over,
                task,
                roster: PhantomData,
            })
        }
    }
}

/// Does a step of the work that stands in a slot. It gives false where none does, or somebody else is at it.
pub(crate) fn step_slot<
    C: Cells,
    R: Wait,
    K: StepWork<C> + Drop,
    L: Roster<C, C::Cell, C::Call, C::Answer, K>,
>(rt: &R, board: &Board<C>, slot: &Slot<C, K, L>) -> bool
    requires board { L.board ≡ Some board.now }
{
    let Some(mut guard) = slot.try_lock() else {
        return false;
    };
    match guard.take() {
        Some(station) => {
            *guard = Some(station.step(rt, board));
            true
        }
        None => false,
    }
}

// Does a step of the work that stands in a slot. The task comes back once its work is over.
fn take_over<
    C: Cells,
    R: Wait,
    K: StepWork<C> + Drop,
    L: Roster<C, C::Cell, C::Call, C::Answer, K>,
>(rt: &R, board: &Board<C>, slot: &Slot<C, K, L>, place: usize) -> Option<Task<C, K>>
    requires board { L.board ≡ Some board.now }
    ensures { IfSome result (λ task. (first : K) × (slice_get L.works place ≡ Some first)
        × IsDoneFrom K.may_begin K.has_done board.now (L.from + place) first task) }
{
    let mut guard = slot.lock(rt);
    let station = guard.take()?;
    match station.step(rt, board).into_done(board, place) {
        Ok(task) => Some(task),
        Err(station) => {
            *guard = Some(station);
            None
        }
    }
}

/// Does a work that others may help with: it stands in the slot, and whenever its caller's number is rung a step of it
/// is done here.
pub(crate) fn work_lent<
    C: Cells,
    R: Wait,
    K: StepWork<C> + Drop,
    L: Roster<C, C::Cell, C::Call, C::Answer, K>,
>(
    rt: &R,
    board: &Board<C>,
    slot: &Slot<C, K, L>,
    number: u32,
    place: usize,
    task: Task<C, K>,
) -> Task<C, K>
    requires board { L.board ≡ Some board.now }
    requires listed { IsListed K.may_begin board.now L.works L.from place task }
    ensures { IsWorked K.has_done board.now task result }
{
    *slot.lock(rt) = Some(Station::<C, K, L>::of(board, place, task));
    'turns: for _ in rt.forever() {
        if let Some(task) = take_over(rt, board, slot, place) {
            return task;
        }
        board.rest_for(rt, number);
    }
    unreachable!()
}
