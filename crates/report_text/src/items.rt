//! Items of a SELECT, as they are printed.

ghost use Rattle.std.specs.Prelude.{◌≡◌, ◌++◌, codes, OnOk};
ghost use Rattle.cube_language.specs.Printed.{item_text};

use cube_language::Item;
use cube_values::Text;
use std::alloc::AllocError;

/// Appends the word of an aggregate with its `(`, a metric and `)`.
fn put_aggregate(out: &mut Vec<u8>, word: &[u8], metric: &Text) -> Result<(), AllocError>
    ensures { OnOk result
        (out.new.items ≡ out.old.items ++ (word.now ++ (metric.now ++ codes ")"))) }
{
    out.extend_from_slice(word)?;
    out.extend_from_slice(metric.as_bytes())?;
    out.push(b')')?;
    Ok(())
}

/// Appends an item.
pub(crate) fn put_item(out: &mut Vec<u8>, item: &Item) -> Result<(), AllocError>
    ensures { OnOk result (out.new.items ≡ out.old.items ++ item_text item.now) }
{
    match item {
        Item::Plain(name) => out.extend_from_slice(name.as_bytes()),
        Item::Sum(metric) => put_aggregate(out, b"SUM(", metric),
        Item::Min(metric) => put_aggregate(out, b"MIN(", metric),
        Item::Max(metric) => put_aggregate(out, b"MAX(", metric),
        Item::Avg(metric) => put_aggregate(out, b"AVG(", metric),
        Item::CountAll => out.extend_from_slice(b"COUNT(*)"),
    }
}
