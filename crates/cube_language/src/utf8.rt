//! Bytes in UTF-8 as text.

ghost use Rattle.std.specs.Prelude.{◌≡◌, IsUtf8};

use std::str;

/// Bytes that are known to be UTF-8, as text. They are not copied.
pub fn text_of(bytes: &[u8]) -> &str
    requires { IsUtf8 bytes.now }
    ensures { result.now ≡ bytes.now }
{
    str::from_utf8(bytes).unwrap()
}
