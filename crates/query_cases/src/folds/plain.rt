//! Many rows made from a seed, against a plain fold.

ghost use Rattle.std.specs.Prelude.{◌<◌, ◌^◌, length};

use super::{Made, gives, names, query, row, tables};
use cube_values::{BoundItem, BoundQuery, Field, Line, NameLists, Table};
use std::alloc::{AllocError, Global};

/// A group of the plain fold, by its key.
#[derive(Clone, Copy)]
struct Plain {
    key: [u32; 3],
    count: u64,
    sum: i128,
    least: i64,
    greatest: i64,
}

/// The key of a row: its coordinates in the first `columns` dimensions, 0 in the others. The first one is
/// turned round, since its texts fall as the coordinates rise.
fn plain_key(row: Made, columns: usize) -> [u32; 3] {
    let [first, second, third] = row.coords;
    [
        if columns > 0 {
            4u32.wrapping_sub(first)
        } else {
            0
        },
        if columns > 1 { second } else { 0 },
        if columns > 2 { third } else { 0 },
    ]
}

fn plain_fold(alloc: Global, rows: &[Made], columns: usize) -> Result<Vec<Plain>, AllocError> {
    let mut groups: Vec<Plain> = Vec::new(alloc);
    for row in rows {
        let key = plain_key(*row, columns);
        let mut is_new = true;
        for group in groups.iter_mut() {
            if group.key == key {
                is_new = false;
                group.count = group.count.wrapping_add(1);
                group.sum = group.sum.wrapping_add(i128::from(row.metric));
                if row.metric < group.least {
                    group.least = row.metric;
                }
                if row.metric > group.greatest {
                    group.greatest = row.metric;
                }
            }
        }
        if is_new {
            groups.push(Plain {
                key,
                count: 1,
                sum: i128::from(row.metric),
                least: row.metric,
                greatest: row.metric,
            })?;
        }
    }
    groups.sort_by(|a, b| a.key.cmp(&b.key))?;
    Ok(groups)
}

/// The average in ten-thousandths, cut toward zero.
fn is_average(field: &Field, group: &Plain) -> bool {
    let count = i128::from(group.count);
    let cut = if count > 0 {
        group.sum.wrapping_mul(10_000).unsigned_abs() / count.unsigned_abs()
    } else {
        0
    };
    match field {
        Field::Decimal { neg, whole, four } => {
            *neg == (group.sum < 0 && cut > 0)
                && *whole == cut / 10_000
                && *four == (cut % 10_000) as u16
        }
        _ => false,
    }
}

fn is_whole(field: &Field, wanted: i128) -> bool {
    match field {
        Field::Whole(n) => *n == wanted,
        _ => false,
    }
}

fn text_of(place: u32) -> &'static str {
    match place {
        0 => "v",
        1 => "w",
        2 => "x",
        3 => "y",
        4 => "z",
        _ => "",
    }
}

fn is_text_of(field: &Field, place: u32) -> bool {
    match field {
        Field::Text(text) => text.as_str() == text_of(place),
        _ => false,
    }
}

/// Whether fields are the first columns of a group's key.
fn is_key(fields: &[Field], key: [u32; 3]) -> bool {
    match fields {
        [] => true,
        [first] => is_text_of(first, key[0]),
        [first, second] => is_text_of(first, key[0]) && is_whole(second, i128::from(key[1])),
        [first, second, third] => {
            is_text_of(first, key[0])
                && is_whole(second, i128::from(key[1]))
                && is_whole(third, i128::from(key[2]))
        }
        _ => false,
    }
}

/// Whether fields are the totals of a group.
fn are_totals(fields: &[Field], group: &Plain) -> bool {
    match fields {
        [count, sum, least, greatest, average] => {
            is_whole(count, i128::from(group.count))
                && is_whole(sum, group.sum)
                && is_whole(least, i128::from(group.least))
                && is_whole(greatest, i128::from(group.greatest))
                && is_average(average, group)
        }
        _ => false,
    }
}

/// Whether a line has the first columns of a group's key, and its totals.
fn is_plain_line(line: &Line, group: &Plain, columns: usize) -> bool {
    let fields = line.as_slice();
    if columns > fields.len() {
        return false;
    }
    let (first, others) = fields.split_at(columns);
    is_key(first, group.key) && are_totals(others, group)
}

fn is_plain_table(table: &Table, groups: &[Plain], columns: usize) -> bool {
    let mut pairs = table.as_slice().iter().zip(groups);
    table.len() == groups.len() && pairs.all(|(line, group)| is_plain_line(line, group, columns))
}

/// Rows from a seed: coordinates below 5, 4 and 3, and metrics of both signs.
fn made_rows(alloc: Global, count: usize) -> Result<Vec<Made>, AllocError> {
    let mut rows = Vec::new(alloc);
    let mut seed: u64 = 20260727;
    for _ in 0..count {
        seed = seed
            .wrapping_mul(6364136223846793005)
            .wrapping_add(1442695040888963407);
        let bits = seed >> 20;
        rows.push(Made {
            coords: [
                (bits % 5) as u32,
                (bits / 5 % 4) as u32,
                (bits / 20 % 3) as u32,
            ],
            metric: (bits / 60 % 2001) as i64 - 1000,
        })?;
    }
    Ok(rows)
}

/// A query by the first columns, for these and all totals.
fn query_by(alloc: Global, columns: usize) -> Result<BoundQuery, AllocError> {
    let all = [
        BoundItem::Group(0),
        BoundItem::Group(1),
        BoundItem::Group(2),
        BoundItem::Count,
        BoundItem::Sum(0),
        BoundItem::Min(0),
        BoundItem::Max(0),
        BoundItem::Avg(0),
    ];
    let mut items = Vec::new(alloc);
    for (i, item) in all.iter().enumerate() {
        if i < columns || i >= 3 {
            items.push(*item)?;
        }
    }
    let dims = [0u32, 1, 2];
    query(alloc, &dims[..columns.min(3)], items.as_slice())
}

/// Whether the answer by the first columns is that of the plain fold, in one partial and in three.
fn is_as_plain(
    alloc: Global,
    names: &NameLists,
    rows: &[Made],
    columns: usize,
) -> Result<bool, AllocError>
    requires { length rows.now < 2 ^ 40 }
{
    let groups = plain_fold(alloc, rows, columns)?;
    let query = query_by(alloc, columns)?;
    let (one, three) = tables(alloc, &query, names, rows)?;
    Ok(
        is_plain_table(&one, groups.as_slice(), columns)
            && is_plain_table(&three, groups.as_slice(), columns),
    )
}

#[test]
fn many_rows_as_by_the_plain_fold(rt: HostRuntime) {
    let alloc = rt.alloc();
    let names = names(alloc, "z y x w v").expect(&rt, "memory");
    let rows = made_rows(alloc, 5000).expect(&rt, "memory");
    assert_eq!(rt; rows.len(), 5000);
    for columns in 0..4usize {
        assert!(rt;
            is_as_plain(alloc, &names, rows.as_slice(), columns) == Ok(true),
            "by {columns} columns"
        );
    }
}

/// Rows with a sum of -1.
fn minus_one(alloc: Global, count: usize) -> Result<Vec<Made>, AllocError> {
    let mut rows = Vec::new(alloc);
    for i in 0..count {
        rows.push(row(0, if i == 7 { -1 } else { 0 }))?;
    }
    Ok(rows)
}

/// Whether so many rows with a sum of -1 have an average of 0.
fn is_cut_to_zero(alloc: Global, count: usize) -> Result<bool, AllocError> {
    let rows = minus_one(alloc, count)?;
    if rows.len() != count || count > 1_000_000 {
        return Ok(false);
    }
    let query = query(alloc, &[], &[BoundItem::Sum(0), BoundItem::Avg(0)])?;
    gives(
        alloc,
        &query,
        &NameLists::new(alloc),
        rows.as_slice(),
        "-1 0.0000",
    )
}

#[test]
fn a_small_sum_over_many_rows(rt: HostRuntime) {
    assert!(rt; is_cut_to_zero(rt.alloc(), 100_000) == Ok(true));
}
