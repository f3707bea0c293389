//! The line that is printed.

use crate::request::Request;
use std::fmt;
use std::fmt::{Display, Formatter, Write};
use timed_work::Measured;

/// What was asked for and what was measured.
#[derive(Clone, Copy, Debug)]
pub(crate) struct Line {
    pub(crate) request: Request,
    pub(crate) measured: Measured,
}

impl Display for Line {
    ghost use Rattle.std.specs.Prelude.{Some};
    ghost use Rattle.measures.specs.Lines.{line_text};

    ghost output = { λ l. Some (line_text l.request l.measured) };

    /// `N .. done, checksum C`, and `, T ns each` where the time is wanted.
    fn fmt<W: Write>(&self, f: &mut Formatter<W>) -> fmt::Result {
        let items = self.request.items;
        let done = self.request.path.done();
        let checksum = self.measured.checksum;
        write!(f, "{items} {done}, checksum {checksum}")?;
        if self.request.timed && 0 < items {
            let tenths = u128::from(self.measured.nanoseconds) * 10 / u128::from(items);
            let whole = tenths / 10;
            let tenth = tenths % 10;
            write!(f, ", {whole}.{tenth} ns each")?;
        }
        Ok(())
    }
}
