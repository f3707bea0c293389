//! The law of transactions in any order.

ghost use Rattle.std.specs.Prelude.{ℕ, ◌+◌, Bool, List, filter};
ghost use Rattle.std.specs.List.Sorted.{IsPermutation};
ghost use Rattle.cube_values.specs.Sees.{sees};
ghost use Rattle.cube_values.specs.Visible.{visible_rows};
ghost use Rattle.cube_values.specs.declared.operation.Transaction.{Transaction};
ghost use Rattle.cube_values.specs.declared.row.StoredRow.{StoredRow};
ghost use Rattle.cube_values.specs.declared.snapshot.Snapshot.{Snapshot};
ghost use Rattle.serial_transactions.specs.SerialTransactions.{
  AreOfOwnEpochs,
  operations_of_epoch,
  stored_left_below,
};

/// Whichever rows are looked for: those that a snapshot sees of transactions, in whatever order
/// they are listed, are, each as often, those that the transactions which it sees leave, run one
/// after the other in the order of their epochs.
pub fn visible_rows_are_left_by_epochs()
    ensures { (s : Snapshot) (transactions : List Transaction) (test : StoredRow → Bool)
        → AreOfOwnEpochs transactions
        → IsPermutation (filter test (visible_rows s transactions))
        (filter test
        (stored_left_below (s.epoch + 1) (sees s) (operations_of_epoch transactions))) }
{}
