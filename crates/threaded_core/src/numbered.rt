//! The work of a session with its number.
ghost use Rattle.threaded_core.specs.TaskLists.{numbered_done, numbered_may};

use board_callers::CellCaller;
use std::sync::Wait;
use threaded_callers::CallerWork;
use turn_board::{Board, Cells};

/// The work of the session of a number. Works come back from threads in a list, and by its number each
/// shows that it stands there.
#[derive(Drop)]
pub(crate) struct NumberedWork<W> {
    pub(crate) number: u32,
    pub(crate) work: W,
}

impl<C: Cells, W: CallerWork<C>> CallerWork<C> for NumberedWork<W> {
    ghost may_begin = { numbered_may W.may_begin };

    ghost has_done = { numbered_done W.has_done };

    fn work<R: Wait, P: CellCaller<C>>(&mut self, rt: &R, board: &Board<C>, caller: &mut P) {
        self.work.work(rt, board, caller);
    }

    fn finish<R: Wait, P: CellCaller<C>>(&mut self, rt: &R, board: &Board<C>, caller: &mut P) {
        self.work.finish(rt, board, caller);
    }
}
