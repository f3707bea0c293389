//! Each refusal once, with its number, and each reason and each fault of a cube.

use super::misfit;
use crate::tables::first_other;
use cube_journal::{Refusal, Reply};
use cube_language::{BadRow, Item, Reason, SchemaFault, Syntax};
use cube_values::Text;
use report_text::reply_bytes;
use std::alloc::{AllocError, Global};

/// The refusal of the third statement of the last session.
fn refusal_shown(alloc: Global, refusal: Refusal) -> Result<String, AllocError> {
    let reply = Reply::Refused { refusal };
    String::from_utf8_lossy(alloc, reply_bytes(alloc, 16, 3, &reply)?.as_slice())
}

/// The number of a refusal, and what it says.
fn numbered(asked: &str) -> (u32, &str) {
    match asked.split_once(' ') {
        Some((number, said)) => (number.parse::<u32>().unwrap_or(0), said),
        None => (0, ""),
    }
}

/// A refusal that says a name.
fn of_name(alloc: Global, number: u32, name: &str) -> Result<Refusal, AllocError> {
    let name = Text::new(alloc, name)?;
    Ok(match number {
        2 => Refusal::UnknownCube { name },
        3 => Refusal::UnknownColumn { name },
        4 => Refusal::WrongKind { name },
        5 => Refusal::NotGrouped { name },
        6 => Refusal::CutsBrick { name },
        15 => Refusal::DictionaryFull { name },
        _ => Refusal::CubeExists { name },
    })
}

/// A refusal that says an item.
fn of_item(number: u32, item: Item) -> Refusal {
    match number {
        25 => Refusal::NotWatchable { item },
        26 => Refusal::NotAnItem { item },
        _ => Refusal::BadHaving { item },
    }
}

/// A refusal that says numbers or nothing.
fn of_numbers(number: u32, n: u64, m: u64) -> Refusal {
    match number {
        1 => Refusal::Syntax(Syntax { at: n }),
        8 => Refusal::NoSuchFile,
        9 => Refusal::FileTooLong { size: n },
        10 => Refusal::TooManyRejected {
            rejected: n,
            allowed: m,
        },
        11 => Refusal::ReadFault,
        12 => Refusal::TransactionOpen,
        13 => Refusal::NoTransaction,
        14 => Refusal::TransactionAborted,
        16 => Refusal::NoMemory,
        17 => Refusal::StoreFailed,
        18 => Refusal::ShardFull { shard: 63, rows: m },
        21 => Refusal::TooManyCubes,
        22 => Refusal::ReadOnly,
        23 => Refusal::WatchOpen,
        24 => Refusal::NoWatch,
        28 => Refusal::NoSuchOpen { epoch: n },
        29 => Refusal::NoSuchEntry,
        30 => Refusal::TooManyOpen,
        _ => Refusal::Spent { counter: n },
    }
}

fn of_name_shown(alloc: Global, asked: &str) -> Result<String, AllocError> {
    let (number, name) = numbered(asked);
    refusal_shown(alloc, of_name(alloc, number, name)?)
}

fn of_numbers_shown(alloc: Global, asked: &str) -> Result<String, AllocError> {
    let (number, said) = numbered(asked);
    match said.split_once(' ') {
        Some((n, m)) => {
            let n = n.parse::<u64>().unwrap_or(0);
            let m = m.parse::<u64>().unwrap_or(0);
            refusal_shown(alloc, of_numbers(number, n, m))
        }
        None => String::from_str(alloc, "no numbers"),
    }
}

/// Numbers of refusals, the name that each says, and the whole reply.
const NAMED: &str = r"
2 w|16.3 refused 2 UnknownCube w\n|
3 likes|16.3 refused 3 UnknownColumn likes\n|
4 region|16.3 refused 4 WrongKind region\n|
5 _x9|16.3 refused 5 NotGrouped _x9\n|
6 x|16.3 refused 6 CutsBrick x\n|
15 b|16.3 refused 15 DictionaryFull 'b'\n|
15 it's '|16.3 refused 15 DictionaryFull 'it''s '''\n|
15 |16.3 refused 15 DictionaryFull ''\n|
19 u|16.3 refused 19 CubeExists u\n|
";

/// Numbers of refusals, two numbers to say, and the whole reply.
const NUMBERED: &str = r"
1 7 0|16.3 refused 1 Syntax at 7\n|
8 0 0|16.3 refused 8 NoSuchFile\n|
9 67108865 0|16.3 refused 9 FileTooLong 67108865\n|
10 8 7|16.3 refused 10 TooManyRejected 8 allowed 7\n|
11 0 0|16.3 refused 11 ReadFault\n|
12 0 0|16.3 refused 12 TransactionOpen\n|
13 0 0|16.3 refused 13 NoTransaction\n|
14 0 0|16.3 refused 14 TransactionAborted\n|
16 0 0|16.3 refused 16 NoMemory\n|
17 0 0|16.3 refused 17 StoreFailed\n|
18 0 1099511627776|16.3 refused 18 ShardFull 63 rows 1099511627776\n|
21 0 0|16.3 refused 21 TooManyCubes\n|
22 0 0|16.3 refused 22 ReadOnly\n|
23 0 0|16.3 refused 23 WatchOpen\n|
24 0 0|16.3 refused 24 NoWatch\n|
28 1 0|16.3 refused 28 NoSuchOpen 1\n|
29 0 0|16.3 refused 29 NoSuchEntry\n|
30 0 0|16.3 refused 30 TooManyOpen\n|
31 4611686018427387905 0|16.3 refused 31 Spent 4611686018427387905\n|
";

#[test]
fn refusals_of_names(rt: HostRuntime) {
    assert_eq!(rt; first_other(rt.alloc(), NAMED, of_name_shown), Ok(None));
}

#[test]
fn refusals_of_numbers(rt: HostRuntime) {
    assert_eq!(rt;
        first_other(rt.alloc(), NUMBERED, of_numbers_shown),
        Ok(None)
    );
}

/// Numbers of refusals, the word of the item that each says, and the whole reply.
const OF_ITEMS: &str = r"
25 MIN|16.3 refused 25 NotWatchable MIN(likes)\n|
25 MAX|16.3 refused 25 NotWatchable MAX(likes)\n|
26 |16.3 refused 26 NotAnItem likes\n|
26 SUM|16.3 refused 26 NotAnItem SUM(likes)\n|
26 COUNT|16.3 refused 26 NotAnItem COUNT(*)\n|
27 AVG|16.3 refused 27 BadHaving AVG(likes)\n|
";

fn item(alloc: Global, word: &str) -> Result<Item, AllocError> {
    let name = Text::new(alloc, "likes")?;
    Ok(match word {
        "SUM" => Item::Sum(name),
        "MIN" => Item::Min(name),
        "MAX" => Item::Max(name),
        "AVG" => Item::Avg(name),
        "COUNT" => Item::CountAll,
        _ => Item::Plain(name),
    })
}

fn of_item_shown(alloc: Global, asked: &str) -> Result<String, AllocError> {
    let (number, word) = numbered(asked);
    refusal_shown(alloc, of_item(number, item(alloc, word)?))
}

#[test]
fn refusals_of_items(rt: HostRuntime) {
    assert_eq!(rt; first_other(rt.alloc(), OF_ITEMS, of_item_shown), Ok(None));
}

fn reason(word: &str) -> Reason {
    match word {
        "NotNumber" => Reason::NotNumber,
        "OutOfRange" => Reason::OutOfRange,
        "NotText" => Reason::NotText,
        "TooLong" => Reason::TooLong,
        _ => Reason::DictionaryFull,
    }
}

fn of_row_shown(alloc: Global, word: &str) -> Result<String, AllocError> {
    if word == "WrongCount" {
        let why = BadRow::WrongCount { values: 1 };
        return refusal_shown(alloc, Refusal::BadRow { row: 1, why });
    }
    let why = misfit(alloc, "x", reason(word))?;
    refusal_shown(alloc, Refusal::BadRow { row: 2, why })
}

/// Why a row does not fit, and the refusal of an INSERT with it.
const OF_ROWS: &str = r"
NotNumber|16.3 refused 7 BadRow row 2 column x NotNumber\n|
OutOfRange|16.3 refused 7 BadRow row 2 column x OutOfRange\n|
NotText|16.3 refused 7 BadRow row 2 column x NotText\n|
TooLong|16.3 refused 7 BadRow row 2 column x TooLong\n|
DictionaryFull|16.3 refused 7 BadRow row 2 column x DictionaryFull\n|
WrongCount|16.3 refused 7 BadRow row 1 values 1 WrongCount\n|
";

#[test]
fn refusals_of_rows(rt: HostRuntime) {
    assert_eq!(rt; first_other(rt.alloc(), OF_ROWS, of_row_shown), Ok(None));
}

fn schema_fault(alloc: Global, word: &str) -> Result<SchemaFault, AllocError> {
    let name = Text::new(alloc, "x")?;
    Ok(match word {
        "DuplicateName" => SchemaFault::DuplicateName { name },
        "ZeroCardinality" => SchemaFault::ZeroCardinality { name },
        "RangeTooLarge" => SchemaFault::RangeTooLarge { name },
        "TooManyBricks" => SchemaFault::TooManyBricks,
        "TooManyColumns" => SchemaFault::TooManyColumns,
        _ => SchemaFault::NoMetric,
    })
}

fn of_cube_shown(alloc: Global, word: &str) -> Result<String, AllocError> {
    let fault = schema_fault(alloc, word)?;
    refusal_shown(alloc, Refusal::BadCube { fault })
}

/// The faults of a cube in the order of the checks, and the refusal of a CREATE CUBE.
const OF_CUBES: &str = r"
DuplicateName|16.3 refused 20 BadCube DuplicateName x\n|
ZeroCardinality|16.3 refused 20 BadCube ZeroCardinality x\n|
RangeTooLarge|16.3 refused 20 BadCube RangeTooLarge x\n|
TooManyBricks|16.3 refused 20 BadCube TooManyBricks\n|
TooManyColumns|16.3 refused 20 BadCube TooManyColumns\n|
NoMetric|16.3 refused 20 BadCube NoMetric\n|
";

#[test]
fn refusals_of_cubes(rt: HostRuntime) {
    assert_eq!(rt; first_other(rt.alloc(), OF_CUBES, of_cube_shown), Ok(None));
}
