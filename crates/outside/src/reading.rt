//! Reading a file whole.

ghost use Rattle.std.specs.Prelude.{◌≡◌, ◌≢◌, ℕ, ◌≤◌, length, take, min, Some};
ghost use Rattle.outside.specs.Counts.{Rose};
ghost use Rattle.outside.specs.Files.{TellsPrefix};
ghost use Rattle.outside.specs.Given.{ReadsWhole, IsFileFault};
ghost use Rattle.outside.specs.ShelfCalls.{WhereKnown, AnswersBy, FillsBy};

use crate::answers::{ReadAnswer, SizeAnswer};
use crate::shelf::Shelf;
use cube_values::CallError;
use std::alloc::Global;

/// Why a file was not read.
#[derive(Debug, Drop, Clone, Copy, PartialEq, Eq)]
pub enum FileFault {
    /// There is no file of that name.
    Absent,
    /// The file has this many bytes, which is more than the limit.
    TooLong { size: u64 },
    /// The shelf counted a fault.
    Failed,
}

/// The bytes of a file of at most `limit` bytes. The size is asked once, and a file above the limit
/// is not read; no more bytes are taken than that size. Absent comes where the shelf answers so,
/// TooLong where the size is above the limit, Failed where the shelf failed.
#[tactic(auto, using(crate::proofs::Unread::unread))]
pub fn read_whole<S: Shelf>(
    alloc: Global,
    shelf: &mut S,
    name: &str,
    limit: u64,
) -> Result<Vec<u8>, CallError<FileFault>>
    ensures same { S.told shelf.new ≡ S.told shelf.old }
    ensures later { S.fault_count shelf.old ≤ S.fault_count shelf.new }
    ensures failed { IsFileFault result FileFault.Failed →
        Rose (S.fault_count shelf.old) (S.fault_count shelf.new) }
    ensures quiet { ¬ IsFileFault result FileFault.Failed →
        S.fault_count shelf.new ≡ S.fault_count shelf.old }
    ensures absent { IsFileFault result FileFault.Absent →
        Rose (S.absence_count shelf.old) (S.absence_count shelf.new) }
    ensures present { ¬ IsFileFault result FileFault.Absent →
        S.absence_count shelf.new ≡ S.absence_count shelf.old }
    ensures given { ReadsWhole (S.told shelf.old) name.now limit result }
    ensures calls { WhereKnown (λ past now. AnswersBy name.now limit past now result)
        (S.call_list shelf.old) (S.call_list shelf.new) }
{
    let size = match shelf.size(name) {
        SizeAnswer::Size(size) => size,
        SizeAnswer::Absent => return Err(CallError::Fault(FileFault::Absent)),
        SizeAnswer::Failed => return Err(CallError::Fault(FileFault::Failed)),
    };
    if size > limit {
        return Err(CallError::Fault(FileFault::TooLong { size }));
    }
    let mut bytes = vec![in alloc; 0; size as usize]?;
    match fill(shelf, name, &mut bytes) {
        ReadAnswer::Got(filled) => {
            bytes.truncate(filled);
            Ok(bytes)
        }
        ReadAnswer::Failed => Err(CallError::Fault(FileFault::Failed)),
    }
}

// Puts the first bytes of a file into a piece, as many as there are and the piece holds, and
// answers how many.
fn fill<S: Shelf>(shelf: &mut S, name: &str, into: &mut [u8]) -> ReadAnswer
    ensures same { S.told shelf.new ≡ S.told shelf.old }
    ensures later { S.fault_count shelf.old ≤ S.fault_count shelf.new }
    ensures failed { result ≡ ReadAnswer.Failed →
        Rose (S.fault_count shelf.old) (S.fault_count shelf.new) }
    ensures quiet { result ≢ ReadAnswer.Failed →
        S.fault_count shelf.new ≡ S.fault_count shelf.old }
    ensures absences { S.absence_count shelf.new ≡ S.absence_count shelf.old }
    ensures fits { (n : ℕ) → result ≡ ReadAnswer.Got n → n ≤ length into.new }
    ensures prefix { TellsPrefix (S.told shelf.old) name.now into.new result }
    ensures calls { WhereKnown
        (λ past now. FillsBy name.now (length into.new) past now into.new result)
        (S.call_list shelf.old) (S.call_list shelf.new) }
{
    let mut filled = 0;
    'pieces: while filled < into.len() {
        match shelf.read(name, filled as u64, &mut into[filled..]) {
            ReadAnswer::Got(0) => return ReadAnswer::Got(filled),
            ReadAnswer::Got(n) => filled += n,
            ReadAnswer::Failed => return ReadAnswer::Failed,
        }
    }
    ReadAnswer::Got(filled)
}
