//! The text of an item.

ghost use Rattle.std.specs.Prelude.{Some};
ghost use Rattle.cube_language.specs.Printed.{item_text};

use crate::statement::Item;
use std::fmt;

impl fmt::Display for Item {
    ghost output = { λ item. Some (item_text item) };

    fn fmt<W: fmt::Write>(&self, f: &mut fmt::Formatter<W>) -> fmt::Result {
        match self {
            Item::Plain(name) => write!(f, "{name}"),
            Item::Sum(metric) => write!(f, "SUM({metric})"),
            Item::Min(metric) => write!(f, "MIN({metric})"),
            Item::Max(metric) => write!(f, "MAX({metric})"),
            Item::Avg(metric) => write!(f, "AVG({metric})"),
            Item::CountAll => f.write_str("COUNT(*)"),
        }
    }
}
