//! Each reply and each entry once, with its text written out by hand.

mod refusals;

use crate::tables::first_other;
use cube_journal::{AbortCause, Counters, JournalEntry, LostCause, Rejection, Rejections, Reply};
use cube_language::{BadRow, Reason};
use cube_values::{EpochList, Field, Line, Table, Text};
use report_text::{end_bytes, entry_bytes, put_head, put_journal, reply_bytes};
use std::alloc::{AllocError, Global};

/// A table of one line.
fn one_line(alloc: Global, line: Vec<Field>) -> Result<Table, AllocError> {
    Ok(Table::from_vec(vec![in alloc; Line::from_vec(line)]?))
}

/// A column that a value does not fit.
fn misfit(alloc: Global, name: &str, reason: Reason) -> Result<BadRow, AllocError> {
    Ok(BadRow::Column {
        name: Text::new(alloc, name)?,
        reason,
    })
}

/// The epochs 2 and 3.
fn two_epochs() -> EpochList {
    let mut epochs = EpochList::new();
    epochs.push(2);
    epochs.push(3);
    epochs
}

/// The replies that say an epoch alone, at epoch 4, by a name.
fn at_four(name: &str) -> Reply {
    let epoch = 4;
    match name {
        "begun" => Reply::Begun { epoch },
        "committed" => Reply::Committed { epoch },
        "created" => Reply::Created { epoch },
        "dropped" => Reply::Dropped { epoch },
        "flushed" => Reply::Flushed { epoch },
        "purged" => Reply::Purged { epoch },
        _ => Reply::RolledBack { epoch },
    }
}

/// The text and NULL.
fn text_and_null(alloc: Global) -> Result<Table, AllocError> {
    let name = Text::new(alloc, "O'Hara")?;
    one_line(alloc, vec![in alloc; Field::Text(name), Field::Null]?)
}

fn four_numbers(alloc: Global) -> Result<Table, AllocError> {
    let below = Field::Decimal {
        neg: true,
        whole: 0,
        four: 5000,
    };
    let most = Field::Decimal {
        neg: false,
        whole: 9_223_372_036_854_775_807,
        four: 7,
    };
    let sum = Field::Whole(27_670_116_110_564_327_421);
    one_line(alloc, vec![in alloc; Field::Whole(-5), below, most, sum]?)
}

fn two_rejections(alloc: Global) -> Result<Rejections, AllocError> {
    let second = Rejection {
        number: 2,
        why: misfit(alloc, "likes", Reason::NotNumber)?,
    };
    let third = Rejection {
        number: 3,
        why: BadRow::WrongCount { values: 3 },
    };
    Ok(Rejections::from_vec(vec![in alloc; second, third]?))
}

fn counters_at(ec: u64, lce: u64, lse: u64, pending: EpochList) -> Counters {
    Counters {
        ec,
        lce,
        lse,
        pending,
    }
}

/// The replies that say more, by a name.
fn reply(alloc: Global, name: &str) -> Result<Reply, AllocError> {
    Ok(match name {
        "stored" => Reply::Stored { rows: 3, epoch: 2 },
        "epochs" => Reply::Epochs {
            counters: counters_at(4, 1, 0, two_epochs()),
        },
        "epochs without pending" => Reply::Epochs {
            counters: counters_at(2, 1, 1, EpochList::new()),
        },
        "rows" => Reply::Rows {
            epoch: 4,
            table: text_and_null(alloc)?,
        },
        "no rows" => Reply::Rows {
            epoch: 0,
            table: Table::new(alloc),
        },
        "watching" => Reply::Watching {
            epoch: 2,
            table: four_numbers(alloc)?,
        },
        "loaded" => Reply::Loaded {
            rows: 2,
            rejected: 102,
            list: two_rejections(alloc)?,
            epoch: 1,
        },
        _ => at_four(name),
    })
}

/// The reply to the second statement of the first session.
fn reply_shown(alloc: Global, name: &str) -> Result<String, AllocError> {
    let reply = reply(alloc, name)?;
    String::from_utf8_lossy(alloc, reply_bytes(alloc, 1, 2, &reply)?.as_slice())
}

const REPLIES: &str = r"
begun|1.2 begun 4\n|
committed|1.2 committed 4\n|
created|1.2 created epoch 4\n|
dropped|1.2 dropped epoch 4\n|
flushed|1.2 flushed 4\n|
purged|1.2 purged 4\n|
rolled back|1.2 rolled back 4\n|
stored|1.2 stored 3 epoch 2\n|
epochs|1.2 epochs ec 4 lce 1 lse 0 pending [2,3]\n|
epochs without pending|1.2 epochs ec 2 lce 1 lse 1 pending []\n|
rows|1.2 rows 1 epoch 4\n'O''Hara',NULL\n|
no rows|1.2 rows 0 epoch 0\n|
watching|1.2 watching 1 epoch 2\n-5,-0.5000,9223372036854775807.0007,27670116110564327421\n|
loaded|1.2 stored 2 rejected 102 epoch 1\nreject 2 column likes NotNumber\nreject 3 values 3 WrongCount\n|
";

#[test]
fn replies(rt: HostRuntime) {
    assert_eq!(rt; first_other(rt.alloc(), REPLIES, reply_shown), Ok(None));
}

/// The entries of a session's statement, by a name.
fn entry(name: &str) -> JournalEntry {
    let session = 1;
    let statement = 2;
    let epoch = 3;
    match name {
        "begin" => JournalEntry::Begin {
            session,
            statement,
            epoch,
            deps: EpochList::new(),
        },
        "begin with deps" => JournalEntry::Begin {
            session,
            statement,
            epoch: 4,
            deps: two_epochs(),
        },
        "cleared" => JournalEntry::Cleared { session, statement },
        "committed" => JournalEntry::Committed {
            session,
            statement,
            epoch,
        },
        "cube" => JournalEntry::Cube {
            session,
            statement,
            epoch,
        },
        "flushed" => JournalEntry::Flushed { session, statement },
        "idle" => JournalEntry::Idle { epoch },
        "purged" => JournalEntry::Purged {
            session,
            statement,
            epoch,
        },
        "read" => JournalEntry::Read {
            session: 17,
            statement,
            epoch,
        },
        "readend" => JournalEntry::ReadEnd {
            session: 33,
            statement,
        },
        "refused" => JournalEntry::Refused {
            session,
            statement,
            code: 17,
        },
        "round" => JournalEntry::Round { epoch },
        "lost disk" => JournalEntry::RoundLost {
            epoch,
            cause: LostCause::Disk,
        },
        "lost memory" => JournalEntry::RoundLost {
            epoch,
            cause: LostCause::Memory,
        },
        "safe" => JournalEntry::Safe { epoch },
        _ => JournalEntry::Show { session, statement },
    }
}

fn entry_shown(alloc: Global, name: &str) -> Result<String, AllocError> {
    String::from_utf8_lossy(alloc, entry_bytes(alloc, &entry(name))?.as_slice())
}

const ENTRIES: &str = r"
begin|begin 1.2 epoch 3 deps []|
begin with deps|begin 1.2 epoch 4 deps [2,3]|
cleared|cleared 1.2|
committed|committed 1.2 epoch 3|
cube|cube 1.2 epoch 3|
flushed|flushed 1.2|
idle|idle 3|
purged|purged 1.2 epoch 3|
read|read 17.2 epoch 3|
readend|readend 33.2|
refused|refused 1.2 code 17|
round|round 3|
lost disk|lost 3 disk|
lost memory|lost 3 memory|
safe|safe 3|
show|show 1.2|
";

/// Why a transaction is aborted, by the name of the cause.
fn cause(name: &str) -> AbortCause {
    match name {
        "Asked" => AbortCause::Asked,
        "EndOfScript" => AbortCause::EndOfScript,
        "TooManyRejected" => AbortCause::TooManyRejected,
        "ReadFault" => AbortCause::ReadFault,
        "NoMemory" => AbortCause::NoMemory,
        _ => AbortCause::ShardFull {
            shard: 4,
            rows: 1_099_511_627_776,
        },
    }
}

fn abort_shown(alloc: Global, name: &str) -> Result<String, AllocError> {
    let aborted = JournalEntry::Aborted {
        session: 1,
        statement: 2,
        epoch: 3,
        cause: cause(name),
    };
    String::from_utf8_lossy(alloc, entry_bytes(alloc, &aborted)?.as_slice())
}

const ABORTS: &str = r"
Asked|aborted 1.2 epoch 3 Asked|
EndOfScript|aborted 1.2 epoch 3 EndOfScript|
TooManyRejected|aborted 1.2 epoch 3 TooManyRejected|
ReadFault|aborted 1.2 epoch 3 ReadFault|
NoMemory|aborted 1.2 epoch 3 NoMemory|
ShardFull|aborted 1.2 epoch 3 ShardFull 4 rows 1099511627776|
";

#[test]
fn entries(rt: HostRuntime) {
    assert_eq!(rt; first_other(rt.alloc(), ENTRIES, entry_shown), Ok(None));
}

#[test]
fn aborts(rt: HostRuntime) {
    assert_eq!(rt; first_other(rt.alloc(), ABORTS, abort_shown), Ok(None));
}

/// A head and a journal in one buffer, where each stands after what it has.
fn head_and_journal(alloc: Global) -> Result<Vec<u8>, AllocError> {
    let mut out = Vec::new(alloc);
    put_head(&mut out, 2)?;
    put_journal(&mut out, &[entry("round"), entry("safe")])?;
    Ok(out)
}

/// The closing line, or a head and a journal.
fn line_shown(alloc: Global, name: &str) -> Result<String, AllocError> {
    let bytes = match name {
        "end" => end_bytes(alloc, &counters_at(5, 4, 3, two_epochs()))?,
        _ => head_and_journal(alloc)?,
    };
    String::from_utf8_lossy(alloc, bytes.as_slice())
}

const LINES: &str = r"
end|end ec 5 lce 4 lse 3\n|
head and journal|session 2\njournal 2\nround 3\nsafe 3\n|
";

#[test]
fn the_closing_line_and_a_journal(rt: HostRuntime) {
    assert_eq!(rt; first_other(rt.alloc(), LINES, line_shown), Ok(None));
}
