//! Refusals: the number, the word and the values of each.

ghost use Rattle.std.specs.Prelude.{◌≡◌, ◌++◌, codes, decimal, OnOk};
ghost use Rattle.cube_language.specs.Printed.{item_text};
ghost use Rattle.cube_language.specs.Quotes.{quoted};
ghost use Rattle.cube_journal.specs.Refusals.{bad_row_text, cause_text, reason_text, refusal_text, schema_fault_text};

use crate::items::put_item;
use crate::parts::{put_counted, put_named, put_two_counted};
use cube_journal::Refusal;
use cube_language::{BadRow, Item, Reason, SchemaFault, put_quoted, put_u64};
use cube_values::Text;
use std::alloc::AllocError;

/// Appends a word, which ends in a space, and an item.
fn put_of_item(out: &mut Vec<u8>, word: &[u8], item: &Item) -> Result<(), AllocError>
    ensures { OnOk result (out.new.items ≡ out.old.items ++ (word.now ++ item_text item.now)) }
{
    out.extend_from_slice(word)?;
    put_item(out, item)
}

/// Appends why a value does not fit its column.
fn put_reason(out: &mut Vec<u8>, reason: Reason) -> Result<(), AllocError>
    ensures { OnOk result (out.new.items ≡ out.old.items ++ reason_text reason) }
{
    match reason {
        Reason::NotNumber => out.extend_from_slice(b"NotNumber"),
        Reason::OutOfRange => out.extend_from_slice(b"OutOfRange"),
        Reason::NotText => out.extend_from_slice(b"NotText"),
        Reason::TooLong => out.extend_from_slice(b"TooLong"),
        Reason::DictionaryFull => out.extend_from_slice(b"DictionaryFull"),
    }
}

/// Appends how many values a row has that has not one for each column.
fn put_wrong_count(out: &mut Vec<u8>, values: u64) -> Result<(), AllocError>
    ensures { OnOk result (out.new.items
        ≡ out.old.items ++ (codes "values " ++ (decimal values ++ codes " WrongCount"))) }
{
    put_counted(out, b"values ", values)?;
    out.extend_from_slice(b" WrongCount")?;
    Ok(())
}

/// Appends why a row is not stored.
pub(crate) fn put_bad_row(out: &mut Vec<u8>, why: &BadRow) -> Result<(), AllocError>
    ensures { OnOk result (out.new.items ≡ out.old.items ++ bad_row_text why.now) }
{
    match why {
        BadRow::WrongCount { values } => put_wrong_count(out, *values),
        BadRow::Column { name, reason } => {
            put_named(out, b"column ", name)?;
            out.push(b' ')?;
            put_reason(out, *reason)
        }
    }
}

/// Appends the number of a row, counted from 1, and why it is not stored.
fn put_row_refusal(out: &mut Vec<u8>, row: u64, why: &BadRow) -> Result<(), AllocError>
    ensures { OnOk result (out.new.items
        ≡ out.old.items
        ++ (codes "BadRow row " ++ (decimal row ++ (codes " " ++ bad_row_text why.now)))) }
{
    put_counted(out, b"BadRow row ", row)?;
    out.push(b' ')?;
    put_bad_row(out, why)
}

/// Appends why a cube cannot be stored.
fn put_schema_fault(out: &mut Vec<u8>, fault: &SchemaFault) -> Result<(), AllocError>
    ensures { OnOk result (out.new.items ≡ out.old.items ++ schema_fault_text fault.now) }
{
    match fault {
        SchemaFault::DuplicateName { name } => put_named(out, b"DuplicateName ", name),
        SchemaFault::ZeroCardinality { name } => put_named(out, b"ZeroCardinality ", name),
        SchemaFault::RangeTooLarge { name } => put_named(out, b"RangeTooLarge ", name),
        SchemaFault::TooManyBricks => out.extend_from_slice(b"TooManyBricks"),
        SchemaFault::TooManyColumns => out.extend_from_slice(b"TooManyColumns"),
        SchemaFault::NoMetric => out.extend_from_slice(b"NoMetric"),
    }
}

/// Appends the refusal of a CREATE CUBE.
fn put_bad_cube(out: &mut Vec<u8>, fault: &SchemaFault) -> Result<(), AllocError>
    ensures { OnOk result
        (out.new.items ≡ out.old.items ++ (codes "BadCube " ++ schema_fault_text fault.now)) }
{
    out.extend_from_slice(b"BadCube ")?;
    put_schema_fault(out, fault)
}

/// Appends the refusal of a text for which a dictionary has no place. The text is quoted.
fn put_dictionary_full(out: &mut Vec<u8>, text: &Text) -> Result<(), AllocError>
    ensures { OnOk result
        (out.new.items ≡ out.old.items ++ (codes "DictionaryFull " ++ quoted text.now)) }
{
    out.extend_from_slice(b"DictionaryFull ")?;
    put_quoted(out, text.as_bytes())
}

/// Appends what a refusal says after its number.
fn put_cause(out: &mut Vec<u8>, refusal: &Refusal) -> Result<(), AllocError>
    ensures { OnOk result (out.new.items ≡ out.old.items ++ cause_text refusal.now) }
{
    match refusal {
        Refusal::Syntax(fault) => put_counted(out, b"Syntax at ", fault.at),
        Refusal::UnknownCube { name } => put_named(out, b"UnknownCube ", name),
        Refusal::UnknownColumn { name } => put_named(out, b"UnknownColumn ", name),
        Refusal::WrongKind { name } => put_named(out, b"WrongKind ", name),
        Refusal::NotGrouped { name } => put_named(out, b"NotGrouped ", name),
        Refusal::CutsBrick { name } => put_named(out, b"CutsBrick ", name),
        Refusal::BadRow { row, why } => put_row_refusal(out, *row, why),
        Refusal::NoSuchFile => out.extend_from_slice(b"NoSuchFile"),
        Refusal::FileTooLong { size } => put_counted(out, b"FileTooLong ", *size),
        Refusal::TooManyRejected { rejected, allowed } => {
            put_two_counted(out, b"TooManyRejected ", *rejected, b" allowed ", *allowed)
        }
        Refusal::ReadFault => out.extend_from_slice(b"ReadFault"),
        Refusal::TransactionOpen => out.extend_from_slice(b"TransactionOpen"),
        Refusal::NoTransaction => out.extend_from_slice(b"NoTransaction"),
        Refusal::TransactionAborted => out.extend_from_slice(b"TransactionAborted"),
        Refusal::DictionaryFull { name } => put_dictionary_full(out, name),
        Refusal::NoMemory => out.extend_from_slice(b"NoMemory"),
        Refusal::StoreFailed => out.extend_from_slice(b"StoreFailed"),
        Refusal::ShardFull { shard, rows } => {
            put_two_counted(out, b"ShardFull ", u64::from(*shard), b" rows ", *rows)
        }
        Refusal::CubeExists { name } => put_named(out, b"CubeExists ", name),
        Refusal::BadCube { fault } => put_bad_cube(out, fault),
        Refusal::TooManyCubes => out.extend_from_slice(b"TooManyCubes"),
        Refusal::ReadOnly => out.extend_from_slice(b"ReadOnly"),
        Refusal::WatchOpen => out.extend_from_slice(b"WatchOpen"),
        Refusal::NoWatch => out.extend_from_slice(b"NoWatch"),
        Refusal::NotWatchable { item } => put_of_item(out, b"NotWatchable ", item),
        Refusal::NotAnItem { item } => put_of_item(out, b"NotAnItem ", item),
        Refusal::BadHaving { item } => put_of_item(out, b"BadHaving ", item),
        Refusal::NoSuchOpen { epoch } => put_counted(out, b"NoSuchOpen ", *epoch),
        Refusal::NoSuchEntry => out.extend_from_slice(b"NoSuchEntry"),
        Refusal::TooManyOpen => out.extend_from_slice(b"TooManyOpen"),
        Refusal::Spent { counter } => put_counted(out, b"Spent ", *counter),
    }
}

/// Appends the number of a refusal and what it says.
pub fn put_refusal(out: &mut Vec<u8>, refusal: &Refusal) -> Result<(), AllocError>
    ensures { OnOk result (out.new.items ≡ out.old.items ++ refusal_text refusal.now) }
{
    put_u64(out, u64::from(refusal.code()))?;
    out.push(b' ')?;
    put_cause(out, refusal)
}
