//! Texts in quotes.

ghost use Rattle.std.specs.Prelude.{◌≡◌, ℕ, List, IfOk, string_bytes};
ghost use Rattle.cube_language.specs.Quotes.{quoted};
ghost use Rattle.cube_language.specs.Symbols.{halved, unquoted};

use cube_values::Text;
use std::alloc::{AllocError, Global};

/// What stands in quotes, with one quote for each two.
fn halved(alloc: Global, inner: &str) -> Result<String, AllocError>
    ensures { IfOk result (λ text. string_bytes text ≡ halved inner.now) }
{
    let mut text = String::with_capacity(alloc, inner.len())?;
    let mut left = inner;
    'quotes: while let Some((front, behind)) = left.split_once('\'') {
        text.push_str(front)?;
        text.push('\'')?;
        left = behind.strip_prefix('\'').unwrap_or(behind);
    }
    text.push_str(left)?;
    Ok(text)
}

/// The text that stands in quotes.
pub(crate) fn unquoted(alloc: Global, in_quotes: &str) -> Result<Text, AllocError>
    requires { (inner : List ℕ) × (in_quotes.now ≡ quoted inner) }
    ensures { IfOk result (λ text. text ≡ unquoted in_quotes.now) }
{
    let inner = &in_quotes[1..in_quotes.len() - 1];
    Ok(Text::from_string(halved(alloc, inner)?))
}
