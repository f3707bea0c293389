//! Digests as they are shown.

use std::fmt;

/// A digest of SHA-256. It is shown in 64 hexadecimal digits.
#[derive(Clone, Copy, Debug, PartialEq, Eq)]
pub struct Digest {
    pub bytes: [u8; 32],
}

impl fmt::Display for Digest {
    fn fmt<W: fmt::Write>(&self, f: &mut fmt::Formatter<W>) -> fmt::Result {
        for byte in self.bytes.as_slice() {
            write!(f, "{byte:02x}")?;
        }
        Ok(())
    }
}
