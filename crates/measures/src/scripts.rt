//! Splitting a script into its statements.

ghost use Rattle.std.specs.Prelude.{IfOk};
ghost use Rattle.measures.specs.Checksums.{CountsStatements};

use cube_values::CallError;
use sql_words::split;
use std::alloc::{AllocError, Global};
use timed_work::{Work, below, seeded};

/// A script of INSERTs, one a line.
#[derive(Drop)]
pub(crate) struct Split {
    script: Vec<u8>,
}

impl Work for Split {
    fn prepared(alloc: Global, items: u32) -> Result<Split, AllocError> {
        let mut numbers = seeded();
        let mut script = Vec::new(alloc);
        for _item in 0..items {
            let day = below(&mut numbers, 365);
            let amount = below(&mut numbers, 100_000);
            let line = format!(in alloc; "INSERT INTO sales VALUES ({day}, 'north', {amount});\n")?;
            script.extend_from_slice(line.as_bytes())?;
        }
        Ok(Split { script })
    }

    /// The checksum is the number of statements, 0 for a script that is refused.
    fn work(&mut self, alloc: Global) -> Result<u64, AllocError>
        ensures { IfOk result (λ sum. CountsStatements self.old.script.items sum) }
    {
        match split(alloc, self.script.as_slice()) {
            Ok(pieces) => Ok(pieces.len() as u64),
            Err(CallError::Fault(_)) => Ok(0),
            Err(CallError::NoMemory) => Err(AllocError),
        }
    }
}
