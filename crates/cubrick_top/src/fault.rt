//! How a run ends.
ghost use Rattle.std.specs.Prelude.{◌≡◌, [], Some};
ghost use Rattle.cubrick_top.specs.Statuses.{status_of, status_of_file, status_of_store};

use cube_journal::JournalEntry;
use linked_shards::CoreShard;
use names_dict::Dicts;
use opened_store::StoreFault;
use run_files::BadFile;
use run_words::WordsFault;
use std::alloc::Global;
use thiserror::Error;

/// Why a run ended with another status than 0.
#[derive(Debug, Drop, Error)]
pub enum Fault {
    /// Status 2: the words ask for nothing.
    #[error("{fault}")]
    Words { fault: WordsFault },
    /// Status 3 where a file is not there or could not be read, and 4 where it is not in order.
    #[error("{bad}")]
    File { bad: BadFile },
    /// Status 6 where a disk failed, as the store was opened or in a round, and 5 where there is no store to go on from.
    #[error("{fault}")]
    Store { fault: StoreFault },
    /// Status 7: the text could not be written whole.
    #[error("output fault")]
    OutputFault,
    /// Status 8: memory ran out, or a thread was refused.
    #[error("no memory")]
    NoMemory,
}

/// How a run ended: its status, the fault where that is not 0, and what its cells held when they were shut. Where no
/// session ran the journal, the dictionaries and the shards are empty.
#[derive(Drop)]
pub struct Finish {
    pub status: u8,
    pub fault: Option<Fault>,
    pub journal: Vec<JournalEntry>,
    pub names: Dicts,
    pub shards: Vec<CoreShard>,
}

fn status_of_file(bad: &BadFile) -> u8
    ensures { result ≡ status_of_file bad.now }
{
    match bad {
        BadFile::Absent { .. } => 3,
        BadFile::ReadFailed { .. } => 3,
        _ => 4,
    }
}

fn status_of_store(fault: &StoreFault) -> u8
    ensures { result ≡ status_of_store fault.now }
{
    match fault {
        StoreFault::DiskFault => 6,
        _ => 5,
    }
}

pub(crate) fn status_of(fault: &Option<Fault>) -> u8
    ensures { result ≡ status_of fault.now }
{
    match fault {
        None => 0,
        Some(Fault::Words { .. }) => 2,
        Some(Fault::File { bad }) => status_of_file(bad),
        Some(Fault::Store { fault }) => status_of_store(fault),
        Some(Fault::OutputFault) => 7,
        Some(Fault::NoMemory) => 8,
    }
}

/// How a run ends with this fault before any session.
pub fn finish_unplayed(alloc: Global, fault: Fault) -> Finish
    ensures fault { result.fault ≡ Some fault }
    ensures status { result.status ≡ status_of result.fault }
    ensures journal { result.journal.items ≡ [] }
    ensures names { result.names ≡ [] }
    ensures shards { result.shards.items ≡ [] }
{
    let fault = Some(fault);
    Finish {
        status: status_of(&fault),
        fault,
        journal: Vec::new(alloc),
        names: Dicts::new(alloc),
        shards: Vec::new(alloc),
    }
}
