//! Columns of a cube by their names.

ghost use Rattle.std.specs.Prelude.{◌≡◌, option_copied, find};
ghost use Rattle.std.specs.List.{list_any};
ghost use Rattle.std.specs.Str.{bytes_eq};
ghost use Rattle.cube_language.specs.Cubes.{column_names, dim_names};
ghost use Rattle.cube_language.specs.ColumnUses.{dim_named};

use cube_language::{Decl, DimDecl};
use cube_values::Text;

/// Whether two names are one.
pub fn same_name(a: &Text, b: &Text) -> bool
    ensures { result ≡ bytes_eq a.now b.now }
{
    a.as_bytes() == b.as_bytes()
}

/// Whether a name is among these.
pub(crate) fn is_among(name: &Text, names: &[Text]) -> bool
    ensures { result ≡ list_any (bytes_eq name.now) names.now }
{
    names.iter().any(|other| same_name(name, other))
}

fn is_dim(name: &Text, dims: &[DimDecl]) -> bool
    ensures { result ≡ list_any (bytes_eq name.now) (dim_names dims.now) }
{
    let mut left = dims;
    'dims: while let [dim, rest @ ..] = left {
        if same_name(name, &dim.name) {
            return true;
        }
        left = rest;
    }
    false
}

/// Whether the cube has a column of the name.
#[tactic(auto, using(crate::proofs::Lists::any_behind))]
pub(crate) fn is_column(decl: &Decl, name: &Text) -> bool
    ensures { result ≡ list_any (bytes_eq name.now) (column_names decl.now) }
{
    is_dim(name, decl.dims.as_slice()) || is_among(name, decl.metrics.as_slice())
}

fn dim_among<'a>(dims: &'a [DimDecl], name: &Text) -> Option<&'a DimDecl>
    ensures { option_copied result ≡ find (λ dim. bytes_eq dim.name name.now) dims.now }
{
    dims.iter().find(|dim| same_name(&dim.name, name))
}

/// The dimension of a name, if the cube has one.
pub(crate) fn dim_named<'a>(decl: &'a Decl, name: &Text) -> Option<&'a DimDecl>
    ensures { option_copied result ≡ dim_named decl.now name.now }
{
    dim_among(decl.dims.as_slice(), name)
}
