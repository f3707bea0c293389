//! The bits of the rows that a snapshot sees, and of those that one sees and another does not.

ghost use Rattle.std.specs.Prelude.{◌≡◌, length, OnOk};
ghost use Rattle.epochs_vector.specs.Seen.{seen_rows};
ghost use Rattle.brick_store.specs.Deltas.{bits_apart, seen_apart};

use cube_values::{Bits, Snapshot};
use epochs_vector::Epochs;
use std::alloc::AllocError;

/// A bit for each row, set where the snapshot sees the row, in bits that are lent.
pub fn show_in(bits: &mut Bits, epochs: &Epochs, snapshot: &Snapshot) -> Result<(), AllocError>
    ensures { OnOk result (bits.new.bits ≡ seen_rows snapshot.now epochs.now.entries) }
{
    let rows = epochs.rows();
    bits.reserve(rows)?;
    bits.clear(rows);
    epochs.set_visible(snapshot, bits);
    Ok(())
}

/// A bit for each row, set where one snapshot sees the row and another does not, in bits that are lent, as are
/// the others.
pub fn show_apart_in(
    bits: &mut Bits,
    others: &mut Bits,
    epochs: &Epochs,
    one: &Snapshot,
    other: &Snapshot,
) -> Result<(), AllocError>
    ensures { OnOk result
        (bits.new.bits ≡ seen_apart one.now other.now epochs.now.entries) }
{
    show_in(bits, epochs, one)?;
    show_in(others, epochs, other)?;
    clear_where(bits, others);
    Ok(())
}

// Clears the bits that are set in others. The work goes by runs of the others.
fn clear_where(bits: &mut Bits, others: &Bits)
    requires { length others.now.bits ≡ length bits.old.bits }
    ensures { bits.new.bits ≡ bits_apart bits.old.bits others.now.bits }
{
    let mut at = 0;
    'runs: while at < others.len() {
        let from = others.next(at, true);
        let to = others.next(from, false);
        bits.fill(from, to, false);
        at = to;
    }
}
