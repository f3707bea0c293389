//! A store makes the rounds of a core.
ghost use Rattle.stored_rounds.specs.RoundsInStore.{AlwaysOpenForRounds, GoesByRounds, KeepsOfRun, more_rounds, no_rounds};

use crate::stored::StoredRounds;
use board_callers::CellCaller;
use core_program::CoreSize;
use flush_loop::{MakesRounds, RoundResult};
use linked_shards::{CoreShard, ShardCells};
use outside_disk::Disk;
use std::sync::Wait;
use turn_board::Board;

impl<D: Disk> MakesRounds<CoreShard> for StoredRounds<D> {
    ghost serves = { λ m cells. AlwaysOpenForRounds cells };

    ghost has_kept = { λ begun m kept o run calls. KeepsOfRun D.view begun m kept o run calls };

    ghost becomes = { λ before after. GoesByRounds D.view before after };

    fn make_round<R: Wait, P: CellCaller<ShardCells>>(
        &mut self,
        rt: &R,
        board: &Board<ShardCells>,
        caller: &mut P,
        size: &CoreSize,
    ) -> RoundResult {
        self.make_stored_round(rt, board, caller, size)
    }

    ghost stays = { λ m. no_rounds D.view m };

    ghost goes_on = { λ a b c one two. more_rounds D.view a b c one two };
}
