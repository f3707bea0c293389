//! Callers of which a history of the board is known between any two of their calls.
ghost use Rattle.std.specs.Prelude.{◌≡◌};
ghost use Rattle.core_program.specs.declared.cells.CoreCells.{CoreCells};
ghost use Rattle.core_steps.specs.Histories.{HasCoreHistory};
ghost use Rattle.cube_core.specs.declared.cell.CoreAnswer.{CoreAnswer};
ghost use Rattle.cube_core.specs.declared.cell.CoreCall.{CoreCall};
ghost use Rattle.cube_core.specs.declared.cell.CoreCell.{CoreCell};
ghost use Rattle.linked_shards.specs.declared.cell.CoreShard.{CoreShard};
ghost use Rattle.turn_board.specs.declared.board.Board.{Board};

use board_callers::CellCaller;
use cube_core::{CoreAnswer, CoreCall};
use linked_shards::ShardCells;
use std::sync::Wait;
use turn_board::Board;

/// A caller of a core. A history has its calls and no others of it, whenever it may make one.
pub trait TracedCaller: CellCaller<ShardCells> {
    ghost traced: { (board : Board (CoreCells CoreShard) (CoreCell CoreShard) CoreCall CoreAnswer)
        (caller : Self) → Self.calls_on board caller → HasCoreHistory (Self.opening caller)
        (Self.number caller) (Self.own caller) };
}

/// A caller, with such a history.
#[derive(Drop)]
pub struct Traced<P> {
    pub caller: P,
}

impl<P> Traced<P> {
    /// The caller in it.
    pub fn into_caller(self) -> P
        ensures { result ≡ self.caller }
    {
        let Traced { caller } = self;
        caller
    }
}

impl<P: CellCaller<ShardCells>> CellCaller<ShardCells> for Traced<P> {
    ghost calls_on = { λ board traced. P.calls_on board traced.caller
        × HasCoreHistory (P.opening traced.caller) (P.number traced.caller) (P.own traced.caller) };

    ghost opening = { λ traced. P.opening traced.caller };

    ghost number = { λ traced. P.number traced.caller };

    ghost own = { λ traced. P.own traced.caller };

    ghost others = { λ traced. P.others traced.caller };

    fn call<R: Wait>(
        &mut self,
        rt: &R,
        board: &Board<ShardCells>,
        cell: u32,
        call: CoreCall,
    ) -> CoreAnswer {
        self.caller.call(rt, board, cell, call)
    }

    fn rest<R: Wait>(&self, rt: &R, board: &Board<ShardCells>) -> u64 {
        self.caller.rest(rt, board)
    }
}

impl<P: CellCaller<ShardCells>> TracedCaller for Traced<P> {
    ghost traced = { λ board traced calls. calls.1 };
}
