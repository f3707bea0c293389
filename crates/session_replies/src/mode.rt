//! The mode of a session.

ghost use Rattle.std.specs.Prelude.{◌≡◌, unwrap_or};
ghost use Rattle.cube_run.specs.StepOutcomes.{refused_by_mode, refused_when_aborted, refused_when_idle, refused_when_open};
ghost use Rattle.session_replies.specs.Modes.{mode_of, round_follows};

use cube_journal::Refusal;
use cube_language::Statement;
use cube_values::Snapshot;

/// Whether a session has a transaction.
#[derive(Debug, Drop)]
pub enum SessionMode {
    /// It has none.
    Idle,
    /// It has one open, with the writer that began it.
    Open { writer: Snapshot },
    /// A fault ended the one that it had, of the epoch, and it waits for a ROLLBACK.
    Aborted { epoch: u64 },
}

/// What the mode of a session refuses a statement for, if it does.
pub fn refused_by_mode(mode: &SessionMode, statement: &Statement) -> Option<Refusal>
    ensures { result ≡ refused_by_mode (mode_of mode.now) statement.now }
{
    match mode {
        SessionMode::Idle => refused_when_idle(statement),
        SessionMode::Open { .. } => refused_when_open(statement),
        SessionMode::Aborted { .. } => refused_when_aborted(statement),
    }
}

fn refused_when_idle(statement: &Statement) -> Option<Refusal>
    ensures { result ≡ refused_when_idle statement.now }
{
    match statement {
        Statement::Commit | Statement::Rollback => Some(Refusal::NoTransaction),
        _ => None,
    }
}

fn refused_when_open(statement: &Statement) -> Option<Refusal>
    ensures { result ≡ refused_when_open statement.now }
{
    match statement {
        Statement::Begin | Statement::CreateCube { .. } => Some(Refusal::TransactionOpen),
        _ => None,
    }
}

fn refused_when_aborted(statement: &Statement) -> Option<Refusal>
    ensures { result ≡ refused_when_aborted statement.now }
{
    match statement {
        Statement::Rollback | Statement::Flush | Statement::Purge | Statement::ShowEpochs => None,
        _ => Some(Refusal::TransactionAborted),
    }
}

/// Whether a round follows a commit of a session that committed so many transactions before: each time
/// that its commits are a multiple of `round_every`, and never where there is none.
pub fn round_follows(round_every: Option<u32>, others: u32) -> bool
    ensures { result ≡ round_follows (unwrap_or round_every 0) others }
{
    match round_every {
        Some(every) if every != 0 => (u64::from(others) + 1) % u64::from(every) == 0,
        _ => false,
    }
}
