//! Writing bytes whole.

ghost use Rattle.std.specs.Prelude.{◌≡◌, ◌≤◌, OnOk, OnErr};
ghost use Rattle.outside.specs.Counts.{Rose};
ghost use Rattle.outside.specs.Output.{Gained, GainedPrefix};

use crate::answers::PutAnswer;
use crate::sink::Sink;

/// The sink counted a fault before it had taken all.
#[derive(Debug, Drop, Clone, Copy, PartialEq, Eq)]
pub struct OutputFault;

/// Hands bytes to a sink until it has taken them all. After a fault it has taken a prefix of them,
/// and not all.
pub fn put_whole<K: Sink>(sink: &mut K, bytes: &[u8]) -> Result<(), OutputFault>
    ensures later { K.fault_count sink.old ≤ K.fault_count sink.new }
    ensures ok { OnOk result (Gained (K.taken sink.old) bytes.now (K.taken sink.new)) }
    ensures quiet { OnOk result (K.fault_count sink.new ≡ K.fault_count sink.old) }
    ensures failed { OnErr result (Rose (K.fault_count sink.old) (K.fault_count sink.new)) }
    ensures err { OnErr result (GainedPrefix (K.taken sink.old) bytes.now (K.taken sink.new)) }
{
    let mut taken = 0;
    'pieces: while taken < bytes.len() {
        match sink.put(&bytes[taken..]) {
            PutAnswer::Took(n) => taken += n,
            PutAnswer::Failed => return Err(OutputFault),
        }
    }
    Ok(())
}
