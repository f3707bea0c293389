//! Why words ask for nothing.

use thiserror::Error;

/// Why words ask for nothing. Of several causes the first one in this order counts.
#[derive(Clone, Copy, Debug, PartialEq, Eq, Error)]
pub enum WordsFault {
    /// `clap` refuses the words: an option is not known, stands twice or has no value, or a flag has one.
    #[error("usage: cubrick --cubes FILE [--store FILE] [--new] [--shards N] [--round-every N] SCRIPT..")]
    NotTaken,
    /// The number of shards is none, or is not from 1 up to `MOST_SHARDS`.
    #[error("--shards wants a number from 1 to 64")]
    BadShards,
    /// The number of commits to a round is none, or is not from 1 up to `MOST_ROUND_EVERY`.
    #[error("--round-every wants a number from 1 to 1000000")]
    BadRoundEvery,
    /// The number of generated rows is none, or is not from 1 up to `MOST_GENERATED`.
    #[error("--generate wants a number from 1 to 1000000")]
    BadRows,
    /// Rows are to be generated, and more is given than `--shards` and `--round-every`.
    #[error("--generate goes with no file, no script and no --new")]
    NotAlone,
    /// No cubes file is given.
    #[error("--cubes is missing")]
    NoCubes,
    /// A store is to be made, and none is given.
    #[error("--new needs --store")]
    NewWithoutStore,
    /// No script is given.
    #[error("no script is given")]
    NoScripts,
    /// More scripts are given than `MOST_SCRIPTS`.
    #[error("more than 16 scripts are given")]
    TooManyScripts,
}
