//! Places of names and of items.

ghost use Rattle.std.specs.Prelude.{◌≡◌, ◌<◌, ◌≤◌, length, option_copied, IfSome};
ghost use Rattle.std.specs.List.{position_from};
ghost use Rattle.std.specs.Str.{bytes_eq};
ghost use Rattle.cube_values.specs.declared.shape.TheConstants.{MOST_COLUMNS};
ghost use Rattle.cube_values.specs.Shapes.{IsSoundShape};
ghost use Rattle.cube_language.specs.Cubes.{shape_of, IsStorable};
ghost use Rattle.cube_language.specs.ResolvedNames.{dim_place, metric_place, item_place};
ghost use Rattle.cube_language.specs.SameItems.{item_eq};
ghost use Rattle.cube_run.specs.RunRecords.{cube_needed};
ghost use Rattle.query_plan.specs.Bindings.{cube_place};

use cube_language::{Decl, DimDecl, Item, Statement};
use cube_schema::Schema;
use cube_values::{Shape, Text};
use statement_check::{items_of, same_item, same_name};

/// The name of the cube that a statement needs.
pub fn cube_needed(statement: &Statement) -> Option<&Text>
    ensures { option_copied result ≡ cube_needed statement.now }
{
    match statement {
        Statement::Select { cube, .. } => Some(cube),
        Statement::Insert { cube, .. } => Some(cube),
        Statement::Load { cube, .. } => Some(cube),
        Statement::Delete { cube, .. } => Some(cube),
        Statement::Watch { cube, .. } => Some(cube),
        _ => None,
    }
}

/// The place of the cube of a name.
#[tactic(auto, using(crate::proofs::Cubes::place_below))]
pub fn cube_place(cubes: &[Schema], name: &Text) -> Option<usize>
    ensures place { result ≡ cube_place cubes.now name.now }
    ensures within { IfSome result (λ place. place < length cubes.now) }
{
    cubes
        .iter()
        .position(|cube| same_name(&cube.decl().name, name))
}

/// The declaration of a cube, which has few columns.
fn decl_of(cube: &Schema) -> &Decl
    ensures decl { result.now ≡ cube.now }
    ensures dims { length result.now.dims ≤ MOST_COLUMNS }
    ensures metrics { length result.now.metrics ≤ MOST_COLUMNS }
{
    cube.decl()
}

/// The shape of a cube. Its declaration can be stored, so that each dimension has a name of its own.
pub fn shape_of(cube: &Schema) -> &Shape
    ensures shape { result.now ≡ shape_of cube.now }
    ensures sound { IsSoundShape result.now }
    ensures storable { IsStorable cube.now }
{
    cube.decl();
    cube.shape()
}

fn dim_among(dims: &[DimDecl], name: &Text) -> Option<usize>
    ensures place { result ≡ position_from (λ dim. bytes_eq dim.name name.now) 0 dims.now }
    ensures within { IfSome result (λ place. place < length dims.now) }
{
    dims.iter().position(|dim| same_name(&dim.name, name))
}

/// The place of the dimension of a name.
pub fn dim_place(cube: &Schema, name: &Text) -> Option<u32>
    ensures { result ≡ dim_place cube.now name.now }
{
    let place = dim_among(decl_of(cube).dims.as_slice(), name)?;
    Some(place as u32)
}

fn metric_among(metrics: &[Text], name: &Text) -> Option<usize>
    ensures place { result ≡ position_from (bytes_eq name.now) 0 metrics.now }
    ensures within { IfSome result (λ place. place < length metrics.now) }
{
    metrics.iter().position(|metric| same_name(name, metric))
}

/// The place of the metric of a name.
pub fn metric_place(cube: &Schema, name: &Text) -> Option<u32>
    ensures { result ≡ metric_place cube.now name.now }
{
    let place = metric_among(decl_of(cube).metrics.as_slice(), name)?;
    Some(place as u32)
}

fn item_among(items: &[Item], item: &Item) -> Option<usize>
    ensures { result ≡ position_from (item_eq item.now) 0 items.now }
{
    items.iter().position(|other| same_item(item, other))
}

/// The place of an item among those of a query.
pub fn item_place(statement: &Statement, item: &Item) -> Option<usize>
    ensures { result ≡ item_place statement.now item.now }
{
    item_among(items_of(statement), item)
}
