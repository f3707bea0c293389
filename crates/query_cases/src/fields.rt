//! Whether answers are what a text says.

use cube_values::{Field, Table};

// Whether a number with four decimals is the one of a text, as `-0.5000`.
fn is_decimal(neg: bool, whole: u128, four: u16, wanted: &str) -> bool {
    let size = wanted.strip_prefix('-').unwrap_or(wanted);
    match size.split_once('.') {
        Some((units, parts)) => {
            neg == wanted.starts_with('-')
                && units.parse::<u128>().ok() == Some(whole)
                && parts.len() == 4
                && parts.parse::<u16>().ok() == Some(four)
        }
        None => false,
    }
}

// Whether a text stands between two quotes.
fn is_quoted(text: &str, wanted: &str) -> bool {
    match wanted.strip_prefix('\'') {
        Some(rest) => rest.strip_suffix('\'') == Some(text),
        None => false,
    }
}

/// Whether a field is the one of a text: a text in quotes, a whole number, one with four decimals, or NULL.
pub fn is_field(field: &Field, wanted: &str) -> bool {
    match field {
        Field::Text(text) => is_quoted(text.as_str(), wanted),
        Field::Whole(n) => wanted.parse::<i128>().ok() == Some(*n),
        Field::Decimal { neg, whole, four } => is_decimal(*neg, *whole, *four, wanted),
        Field::Null => wanted == "NULL",
    }
}

/// Whether fields are those of a text, with a blank between two.
pub fn are_fields(fields: &[Field], wanted: &str) -> bool {
    let mut pairs = fields.iter().zip(wanted.split(' '));
    fields.len() == wanted.split(' ').count() && pairs.all(|(field, one)| is_field(field, one))
}

/// Whether a table has the lines of a text.
pub fn is_table(table: &Table, wanted: &str) -> bool {
    let mut pairs = table.as_slice().iter().zip(wanted.lines());
    table.len() == wanted.lines().count()
        && pairs.all(|(line, one)| are_fields(line.as_slice(), one))
}
