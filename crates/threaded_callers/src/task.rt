//! A task: a work, and the pass of the caller that does it.
ghost use Rattle.std.specs.Prelude.{◌≡◌, Some, None};
ghost use Rattle.threaded_callers.specs.Tasks.{IsTaskOf};
ghost use Rattle.turn_board.specs.Passes.{IsPassOf};

use turn_board::{Board, Cells, Pass};

/// A work, and the pass of the caller that does it.
#[derive(Drop)]
pub struct Task<C: Cells, W> {
    pub work: W,
    pub(crate) pass: Option<Pass<C>>,
}

impl<C: Cells, W> Task<C, W> {
    /// The work, which no caller does yet.
    pub fn new(work: W) -> Task<C, W>
        ensures { result.work ≡ work }
    {
        Task { work, pass: None }
    }

    // The pass is that of its caller.
    pub(crate) fn give(&mut self, pass: Pass<C>)
        ensures work { self.new.work ≡ self.old.work }
        ensures pass { self.new.pass ≡ Some pass }
    {
        self.pass = Some(pass);
    }

    // Its pass, which it then no longer has.
    pub(crate) fn take_pass(&mut self, _board: &Board<C>) -> Pass<C>
        requires { IsTaskOf _board.now self.old }
        ensures work { self.new.work ≡ self.old.work }
        ensures pass { self.old.pass ≡ Some result }
        ensures of { IsPassOf _board.now result }
    {
        match self.pass.take() {
            Some(pass) => pass,
            None => unreachable!(),
        }
    }
}
