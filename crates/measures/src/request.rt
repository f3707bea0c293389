//! What the words ask for.

ghost use Rattle.std.specs.Prelude.{◌≡◌, map, string_bytes};
ghost use Rattle.measures.specs.Words.{Asks, AsksFor, IsItemCount, done_of, most_of, path_of, request_of, row_path_of, shard_path_of};

/// A call whose time is measured.
#[derive(Clone, Copy, Debug, PartialEq, Eq)]
pub(crate) enum HotPath {
    /// `sql_words::split` of a script.
    Split,
    /// `Dict::encode` of names, one in ten of them new.
    Encode,
    /// `Dict::find` of names that the dictionary has.
    Lookup,
    /// `Known::find` of names that a session knows.
    Known,
    /// `Epochs::visible_bits` of one vector.
    Visible,
    /// `purge_plan::plan` of one vector.
    Plan,
    /// `Partial::add_row` of rows into eight groups.
    Fold,
    /// A job through a mail and its answer back.
    Mail,
    /// A writer and a reader of a session at the desk, each opened and ended.
    Desk,
    /// A mutex locked and let go, by one thread.
    Lock,
    /// `Board::call` of a counter, by one thread.
    Call,
    /// `Board::call` of four counters, each by a thread of its own.
    Cells,
    /// `Source::read` of the records of a file.
    Records,
    /// `Loader::step` over the same records.
    LoadStep,
    /// SHA-256 of the bytes of a round, beside which the next two stand.
    Digest,
    /// `write_round` of a round of the generator's rows.
    RoundWrite,
    /// `read_round` of the same.
    RoundRead,
    /// `read_disk` of the file of a store with that round, beside which the next stands.
    StoreRead,
    /// `open_store` of that store.
    StoreOpen,
    /// A plain copy of batches of rows, beside which the next stands.
    Copy,
    /// `Brick::append` of batches of a thousand rows.
    BrickAppend,
    /// A plain sum of a list of numbers, beside which the next two stand.
    Sum,
    /// `Brick::scan` for a sum and a count by one dimension of eight coordinates.
    BrickScan,
    /// `Brick::scan` for a count.
    BrickCount,
    /// `Columns::keep` of half the rows, by chance.
    BrickKeep,
    /// `Shard::append` of batches of 4,096 rows over 96 bricks.
    ShardAppend,
    /// `Shard::scan` of 96 bricks for the same sum and count as `BrickScan`.
    ShardScan,
    /// `Shard::scan` of many bricks of four rows each, for the same.
    ShardBricks,
}

impl HotPath {
    /// The path of this name.
    fn from_word(word: &str) -> Option<HotPath>
        ensures { result ≡ path_of word.now }
    {
        match word {
            "split" => Some(HotPath::Split),
            "encode" => Some(HotPath::Encode),
            "lookup" => Some(HotPath::Lookup),
            "known" => Some(HotPath::Known),
            "visible" => Some(HotPath::Visible),
            "plan" => Some(HotPath::Plan),
            "fold" => Some(HotPath::Fold),
            "mail" => Some(HotPath::Mail),
            "desk" => Some(HotPath::Desk),
            "lock" => Some(HotPath::Lock),
            "call" => Some(HotPath::Call),
            "cells" => Some(HotPath::Cells),
            "records" => Some(HotPath::Records),
            "load_step" => Some(HotPath::LoadStep),
            _ => HotPath::from_row_word(word),
        }
    }

    /// The path of this name among those over rounds, bricks and shards.
    fn from_row_word(word: &str) -> Option<HotPath>
        ensures { result ≡ row_path_of word.now }
    {
        match word {
            "digest" => Some(HotPath::Digest),
            "round_write" => Some(HotPath::RoundWrite),
            "round_read" => Some(HotPath::RoundRead),
            "store_read" => Some(HotPath::StoreRead),
            "store_open" => Some(HotPath::StoreOpen),
            "copy" => Some(HotPath::Copy),
            "brick_append" => Some(HotPath::BrickAppend),
            "sum" => Some(HotPath::Sum),
            "brick_scan" => Some(HotPath::BrickScan),
            "brick_count" => Some(HotPath::BrickCount),
            "brick_keep" => Some(HotPath::BrickKeep),
            _ => HotPath::from_shard_word(word),
        }
    }

    /// The path of this name among those over shards.
    fn from_shard_word(word: &str) -> Option<HotPath>
        ensures { result ≡ shard_path_of word.now }
    {
        match word {
            "shard_append" => Some(HotPath::ShardAppend),
            "shard_scan" => Some(HotPath::ShardScan),
            "shard_bricks" => Some(HotPath::ShardBricks),
            _ => None,
        }
    }

    /// How many items it takes at most: a script has no more statements than a session takes, and data
    /// that is held in memory stays in the low gigabytes.
    fn most(self) -> u32
        ensures { result ≡ most_of self }
    {
        match self {
            HotPath::Split => 65_536,
            HotPath::Encode => 10_000_000,
            HotPath::Lookup => 10_000_000,
            HotPath::Known => 10_000_000,
            HotPath::Visible => 10_000_000,
            HotPath::Plan => 10_000_000,
            HotPath::Fold => 1_000_000_000,
            HotPath::Mail => 1_000_000_000,
            HotPath::Desk => 10_000_000,
            HotPath::Lock => 1_000_000_000,
            HotPath::Call => 1_000_000_000,
            HotPath::Cells => 1_000_000_000,
            HotPath::Records => 10_000_000,
            HotPath::LoadStep => 10_000_000,
            HotPath::Digest => 100_000_000,
            HotPath::RoundWrite => 100_000_000,
            HotPath::RoundRead => 100_000_000,
            HotPath::StoreRead => 10_000_000,
            HotPath::StoreOpen => 10_000_000,
            HotPath::Copy => 1_000_000_000,
            HotPath::BrickAppend => 1_000_000_000,
            HotPath::Sum => 1_000_000_000,
            HotPath::BrickScan => 1_000_000_000,
            HotPath::BrickCount => 1_000_000_000,
            HotPath::BrickKeep => 1_000_000_000,
            HotPath::ShardAppend => 1_000_000_000,
            HotPath::ShardScan => 1_000_000_000,
            HotPath::ShardBricks => 1_000_000,
        }
    }

    /// What was done with the items.
    pub(crate) fn done(self) -> &'static str
        ensures { result.now ≡ done_of self }
    {
        match self {
            HotPath::Split => "statements split",
            HotPath::Encode => "names encoded",
            HotPath::Lookup => "names looked up",
            HotPath::Known => "known names looked up",
            HotPath::Visible => "entries asked for the visible rows",
            HotPath::Plan => "entries purged",
            HotPath::Fold => "rows folded",
            HotPath::Mail => "jobs mailed",
            HotPath::Desk => "entries added to a journal",
            HotPath::Lock => "locks taken",
            HotPath::Call => "calls made",
            HotPath::Cells => "calls made on each of four cells",
            HotPath::Records => "records read",
            HotPath::LoadStep => "records loaded",
            HotPath::Digest => "rows of a round digested",
            HotPath::RoundWrite => "rows written in a round",
            HotPath::RoundRead => "rows read in a round",
            HotPath::StoreRead => "rows of a store's file read",
            HotPath::StoreOpen => "rows opened in a store",
            HotPath::Copy => "rows copied",
            HotPath::BrickAppend => "rows appended to a brick",
            HotPath::Sum => "numbers summed",
            HotPath::BrickScan => "rows summed and counted in a brick",
            HotPath::BrickCount => "rows counted in a brick",
            HotPath::BrickKeep => "rows of columns kept or left out",
            HotPath::ShardAppend => "rows appended to a shard",
            HotPath::ShardScan => "rows summed and counted in a shard",
            HotPath::ShardBricks => "bricks of a shard summed and counted",
        }
    }
}

/// A hot path, on how many items, and whether the time is printed.
#[derive(Clone, Copy, Debug, PartialEq, Eq)]
pub(crate) struct Request {
    pub(crate) timed: bool,
    pub(crate) path: HotPath,
    pub(crate) items: u32,
}

/// What `[--time] NAME N` asks for, where N is a number of items that the path takes. Any other words ask for
/// nothing.
pub(crate) fn asked_for(words: &[String]) -> Option<Request>
    ensures { AsksFor (map string_bytes words.now) result }
{
    match words {
        [name, items] => asked(false, name.as_str(), items.as_str()),
        [flag, name, items] => {
            if flag.as_str() == "--time" {
                asked(true, name.as_str(), items.as_str())
            } else {
                None
            }
        }
        _ => None,
    }
}

/// What a name and a number ask for.
fn asked(timed: bool, name: &str, items: &str) -> Option<Request>
    ensures { Asks timed name.now items.now result }
{
    request_with(timed, HotPath::from_word(name), number_in(items))
}

/// The number that a text spells in decimal digits, where it fits 32 bits.
fn number_in(text: &str) -> Option<u32>
    ensures { IsItemCount text.now result }
{
    text.parse::<u32>().ok()
}

/// The request of a path and a number, where the path takes so many items.
fn request_with(timed: bool, path: Option<HotPath>, items: Option<u32>) -> Option<Request>
    ensures { result ≡ request_of timed path items }
{
    match (path, items) {
        (Some(path), Some(items)) if 1 <= items && items <= path.most() => {
            Some(Request { timed, path, items })
        }
        _ => None,
    }
}
