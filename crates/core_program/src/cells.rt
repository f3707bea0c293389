//! The cells of the core, for a board.
ghost use Rattle.cube_core.specs.BoardCells.{IsEntryEvent, StandsInCell};
ghost use Rattle.core_program.specs.LinkedCells.{linked-cells, safe-cells};
ghost use Rattle.core_program.specs.CoreFits.{FitsOwnCalls, OpensCells};
ghost use Rattle.cube_core.specs.CoreSteps.{CanTake, CoreStep};

use cube_core::{CoreAnswer, CoreBoard, CoreCall, CoreCell, LinkedShard, apply};
use std::marker::PhantomData;
use turn_board::Cells;

/// The desk, the names, shards of a kind, and the mails.
pub struct CoreCells<S> {
    shards: PhantomData<S>,
}

impl<S: LinkedShard> Cells for CoreCells<S> {
    type Cell = CoreCell<S>;

    type Call = CoreCall;

    type Answer = CoreAnswer;

    ghost step = { CoreStep S.step };

    ghost can = { CanTake S.can };

    ghost fits = { FitsOwnCalls S.LinkedShard.fits S.LinkedShard.stands S.LinkedShard.says };

    #[inline(always)]
    fn apply(cell: &mut CoreCell<S>, call: CoreCall) -> CoreAnswer {
        apply(cell, call)
    }

    ghost safe = { safe-cells S.can S.step S.LinkedShard.fits S.LinkedShard.stands S.LinkedShard.says S.linked };
}

impl<S: LinkedShard> CoreBoard for CoreCells<S> {
    ghost opens = { OpensCells S.LinkedShard.fits S.LinkedShard.stands S.LinkedShard.says };

    ghost event = { λ o. IsEntryEvent S.LinkedShard.fits S.LinkedShard.stands S.LinkedShard.says o };

    ghost stands = { λ o. StandsInCell S.LinkedShard.fits S.LinkedShard.stands S.LinkedShard.says o };

    ghost linked = { linked-cells S.can S.step S.LinkedShard.fits S.LinkedShard.stands S.LinkedShard.says S.linked };
}
