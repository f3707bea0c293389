//! The whole text of a run.

ghost use Rattle.std.specs.Prelude.{◌≡◌, ◌+◌, ◌<◌, ◌^◌, ◌≤◌, ◌++◌, All, IfOk, OnOk, length, map};
ghost use Rattle.cube_journal.specs.JournalLines.{end_text, journal_text};
ghost use Rattle.cube_journal.specs.WholeText.{replies_text, session_text, sessions_text};
ghost use Rattle.report_text.specs.Sessions.{HasFewReplies, replies_of};

use crate::entries::{put_end, put_journal};
use crate::replies::{put_head, put_numbered};
use cube_journal::{Counters, JournalEntry, Reply};
use cube_language::MOST_STATEMENTS;
use std::alloc::{AllocError, Global};

/// Appends replies of a session, of which the first is to the statement of this number.
fn put_replies(
    out: &mut Vec<u8>,
    session: u32,
    first: u32,
    replies: &[Reply],
) -> Result<(), AllocError>
    requires { first + length replies.now < 2 ^ 32 }
    ensures { OnOk result (out.new.items
        ≡ out.old.items ++ replies_text session first replies.now) }
{
    let mut left = replies;
    let mut statement = first;
    'replies: while let [reply, rest @ ..] = left {
        put_numbered(out, session, statement, reply)?;
        left = rest;
        statement += 1;
    }
    Ok(())
}

/// Appends a session's part: its head, and its replies to its statements from 1 on.
pub fn put_session(out: &mut Vec<u8>, session: u32, replies: &[Reply]) -> Result<(), AllocError>
    requires { length replies.now ≤ MOST_STATEMENTS }
    ensures { OnOk result (out.new.items ≡ out.old.items ++ session_text session replies.now) }
{
    put_head(out, session)?;
    put_replies(out, session, 1, replies)
}

/// Appends the parts of sessions, of which the first has this number.
fn put_sessions(out: &mut Vec<u8>, first: u32, sessions: &[Vec<Reply>]) -> Result<(), AllocError>
    requires numbers { first + length sessions.now < 2 ^ 32 }
    requires few { All HasFewReplies sessions.now }
    ensures { OnOk result (out.new.items
        ≡ out.old.items ++ sessions_text first (map replies_of sessions.now)) }
{
    'sessions: for (i, replies) in sessions.iter().enumerate() {
        put_session(out, first + i as u32, replies.as_slice())?;
    }
    Ok(())
}

/// The whole text of a run: the parts of its sessions from 1 on, its journal, and the closing line.
pub fn whole_bytes(
    alloc: Global,
    sessions: &[Vec<Reply>],
    journal: &[JournalEntry],
    counters: &Counters,
) -> Result<Vec<u8>, AllocError>
    requires numbers { length sessions.now < 2 ^ 31 }
    requires few { All HasFewReplies sessions.now }
    ensures { IfOk result (λ text. text.items ≡ sessions_text 1 (map replies_of sessions.now)
        ++ (journal_text journal.now ++ end_text counters.now)) }
{
    let mut out = Vec::new(alloc);
    put_sessions(&mut out, 1, sessions)?;
    put_journal(&mut out, journal)?;
    put_end(&mut out, counters)?;
    Ok(out)
}
