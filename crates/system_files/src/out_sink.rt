//! Standard output as a sink.

use outside::{PutAnswer, Sink};
use std::io;
use std::io::Write;

/// Standard output. It tells nothing of what it took. Each error is a counted fault, and so is taking
/// nothing of a piece that is not empty.
#[derive(Drop)]
pub struct OutSink<'a, R> {
    output: &'a R,
    faults: u64,
}

impl<'a, R: Print> OutSink<'a, R> {
    /// The output that a runtime prints to.
    pub fn new(output: &'a R) -> OutSink<'a, R> {
        OutSink { output, faults: 0 }
    }
}

impl<'a, R: Print> Sink for OutSink<'a, R> {
    ghost use Rattle.std.specs.Prelude.{None};

    ghost taken = { λ _. None };

    ghost fault_count = { λ sink. sink.faults };

    fn faults(&self) -> u64 {
        self.faults
    }

    fn put(&mut self, bytes: &[u8]) -> PutAnswer {
        if bytes.is_empty() {
            return PutAnswer::Took(0);
        }
        match io::writer(self.output).write(bytes) {
            Ok(n) if 0 < n => PutAnswer::Took(n),
            _ => {
                self.faults = self.faults.saturating_add(1);
                PutAnswer::Failed
            }
        }
    }
}
