//! Whether cubes are declared alike.

ghost use Rattle.std.specs.Prelude.{◌≡◌, ◌↔◌, IsTrue};

use cube_schema::{Decl, DimDecl};
use cube_values::Text;

/// Whether two lists have the same texts.
#[tactic(auto, using(crate::specs::SameTexts::same_texts))]
fn are_same_texts(texts: &[Text], others: &[Text]) -> bool
    ensures { IsTrue result ↔ (texts.now ≡ others.now) }
{
    texts == others
}

/// Whether two dimensions are declared alike.
fn is_same_dim(dim: &DimDecl, other: &DimDecl) -> bool
    ensures { IsTrue result ↔ (dim.now ≡ other.now) }
{
    dim.name.as_bytes() == other.name.as_bytes()
        && dim.text == other.text
        && dim.cardinality == other.cardinality
        && dim.range == other.range
}

/// Whether two lists have the same dimensions.
fn are_same_dims(dims: &[DimDecl], others: &[DimDecl]) -> bool
    ensures { IsTrue result ↔ (dims.now ≡ others.now) }
{
    if dims.len() != others.len() {
        return false;
    }
    'dims: for (i, dim) in dims.iter().enumerate() {
        if !is_same_dim(dim, &others[i]) {
            return false;
        }
    }
    true
}

/// Whether two cubes are declared alike.
pub(crate) fn is_same_cube(cube: &Decl, other: &Decl) -> bool
    ensures { IsTrue result ↔ (cube.now ≡ other.now) }
{
    cube.name.as_bytes() == other.name.as_bytes()
        && are_same_dims(cube.dims.as_slice(), other.dims.as_slice())
        && are_same_texts(cube.metrics.as_slice(), other.metrics.as_slice())
}
