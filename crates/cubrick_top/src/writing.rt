//! The text of a run, and how a run ends once its sessions have ended.
ghost use Rattle.std.specs.Prelude.{◌≡◌, ◌≢◌, ◌<◌, ◌^◌, ◌++◌, All, IfOk, [], length, map, ℕ, Some};
ghost use Rattle.std.specs.Bool.{OnTrue};
ghost use Rattle.cube_journal.specs.Counters.{counters};
ghost use Rattle.cube_journal.specs.WholeText.{whole_text};
ghost use Rattle.outside.specs.Output.{Gained, GainedPrefix};
ghost use Rattle.report_text.specs.Sessions.{HasFewReplies, replies_of};
ghost use Rattle.cubrick_top.specs.PlayedEnds.{IsLeft, IsRoundFault, OutputRises, is_lost, is_lost_to_disk};
ghost use Rattle.cubrick_top.specs.Written.{IsWritten};
ghost use Rattle.cubrick_top.specs.declared.fault.Fault.TheVariants.{NoMemory};

use crate::fault::Fault;
use cube_journal::{Counters, JournalEntry, LostCause, Reply};
use flush_loop::RoundResult;
use opened_store::StoreFault;
use outside::{Sink, put_whole};
use report_text::whole_bytes;
use std::alloc::Global;

/// Puts bytes into a sink.
pub(crate) fn put_text<K: Sink>(sink: &mut K, text: &[u8]) -> Option<Fault>
    ensures output { OutputRises result (K.fault_count sink.old) (K.fault_count sink.new) }
    ensures written { IsWritten (K.taken sink.old) text.now (K.taken sink.new) result }
    ensures known { result ≢ Some NoMemory }
{
    match put_whole(sink, text) {
        Ok(()) => None,
        Err(_) => Some(Fault::OutputFault),
    }
}

// Writes the text of a run.
fn write_text<K: Sink>(
    alloc: Global,
    sink: &mut K,
    sessions: &[Vec<Reply>],
    journal: &[JournalEntry],
    last: &Counters,
) -> Option<Fault>
    requires numbers { length sessions.now < 2 ^ 31 }
    requires few { All HasFewReplies sessions.now }
    ensures output { OutputRises result (K.fault_count sink.old) (K.fault_count sink.new) }
    ensures written { (safe : ℕ) → last.now ≡ counters safe journal.now
        → IsWritten (K.taken sink.old)
        (whole_text safe (map replies_of sessions.now) journal.now) (K.taken sink.new) result }
{
    match whole_bytes(alloc, sessions, journal, last) {
        Ok(text) => put_text(sink, text.as_slice()),
        Err(_) => Some(Fault::NoMemory),
    }
}

// Whether the entry tells of a round that was lost to the disk.
fn is_lost_to_disk(entry: &JournalEntry) -> bool
    ensures { result ≡ is_lost_to_disk entry.now }
{
    match entry {
        JournalEntry::RoundLost {
            cause: LostCause::Disk,
            ..
        } => true,
        _ => false,
    }
}

// Whether a round was lost to the disk.
fn is_lost(journal: &[JournalEntry]) -> bool
    ensures { result ≡ is_lost journal.now }
{
    journal.iter().any(|entry| is_lost_to_disk(entry))
}

// The fault of the rounds, once the text is written.
fn round_fault(
    stored: bool,
    journal: &[JournalEntry],
    last_round: Option<RoundResult>,
) -> Option<Fault>
    ensures { IsRoundFault stored journal.now last_round result }
{
    if stored && is_lost(journal) {
        return Some(Fault::Store {
            fault: StoreFault::DiskFault,
        });
    }
    match last_round {
        Some(RoundResult::Safe(_)) => None,
        Some(RoundResult::Idle(_)) => None,
        _ => Some(Fault::NoMemory),
    }
}

/// Writes the text of a run whose scripts were all played to their ends. Its fault is that of the sink, or else that of the
/// rounds.
pub(crate) fn write_run<K: Sink>(
    alloc: Global,
    sink: &mut K,
    stored: bool,
    whole: bool,
    sessions: &[Vec<Reply>],
    journal: &[JournalEntry],
    last: &Counters,
    last_round: Option<RoundResult>,
) -> Option<Fault>
    requires numbers { length sessions.now < 2 ^ 31 }
    requires few { OnTrue whole (All HasFewReplies sessions.now) }
    ensures output { OutputRises result (K.fault_count sink.old) (K.fault_count sink.new) }
    ensures left { (safe : ℕ) → last.now ≡ counters safe journal.now
        → IsLeft stored whole journal.now last_round
        (whole_text safe (map replies_of sessions.now) journal.now)
        (K.taken sink.old) (K.taken sink.new) result }
{
    if !whole {
        return Some(Fault::NoMemory);
    }
    match write_text(alloc, sink, sessions, journal, last) {
        None => round_fault(stored, journal, last_round),
        Some(fault) => Some(fault),
    }
}
