//! The byte of a gate.

ghost use Rattle.std.specs.Prelude.{◌≡◌};
ghost use Rattle.gate_writes.specs.Gates.{has_shut_gate};

/// A gate that is open.
pub const OPEN_GATE: u8 = 0xa5;

/// A gate that is shut, as it is written.
pub(crate) const SHUT_GATE: u8 = 0;

/// Whether a file is not empty and its first byte is not that of an open gate.
pub fn has_shut_gate(file: &[u8]) -> bool
    ensures { result ≡ has_shut_gate file.now }
{
    match file {
        [] => false,
        [gate, ..] => *gate != OPEN_GATE,
    }
}
