//! Dictionaries with the names that were kept.

ghost use Rattle.std.specs.Prelude.{◌≡◌, ◌<◌, ◌≤◌, ◌++◌, [], ◌∷◌, length, IfOk, OnOk};
ghost use Rattle.cube_values.specs.Shapes.{IsSoundCube};
ghost use Rattle.cube_language.specs.declared.decl.TheConstants.{MOST_CUBES};
ghost use Rattle.names_dict.specs.Dictionaries.{dictionaries_of, dictionary_at, IsSoundDictionary, IsTextDimension};
ghost use Rattle.kept_data.specs.KeptDicts.{with_names, with_names_at, cube_dictionaries, dictionaries_with_names};
ghost use Rattle.kept_data.specs.KeptNames.{HasKeptNames, HaveKeptNames};

use cube_schema::Schema;
use cube_values::{CubeShape, NameLists, Text, Texts};
use names_dict::Dicts;
use std::alloc::{AllocError, Global};

/// Gives names to the dictionary of a dimension that has none.
fn add_names(
    dicts: &mut Dicts,
    cube: u32,
    dim: u32,
    shape: &CubeShape,
    names: &[Text],
) -> Result<(), AllocError>
    requires sound { IsSoundCube shape.now }
    requires text { 0 < length names.now → IsTextDimension shape.now dim }
    requires made { dim < length (dictionaries_of dicts.old cube) }
    requires empty { (dictionary_at dicts.old cube dim).names ≡ [] }
    requires fits { IsSoundDictionary (with_names (dictionary_at dicts.old cube dim) names.now) }
    ensures { OnOk result (dicts.new ≡ with_names_at dicts.old cube dim names.now) }
{
    'names: for name in names {
        let _code = dicts.encode(cube, dim, shape, name.as_str())?;
    }
    Ok(())
}

/// Adds the dictionaries of the next cube, with the names of each dimension.
fn add_cube(
    dicts: &mut Dicts,
    cube: u32,
    schema: &Schema,
    lists: &[Texts],
) -> Result<(), AllocError>
    requires place { cube ≡ length dicts.old }
    requires names { HasKeptNames schema.now lists.now }
    ensures { OnOk result (dicts.new ≡ dicts.old ++ cube_dictionaries schema.now lists.now ∷ []) }
{
    let shape = schema.cube_shape();
    dicts.add_cube(shape)?;
    'dims: for (dim, names) in lists.iter().enumerate() {
        add_names(dicts, cube, dim as u32, shape, names.as_slice())?;
    }
    Ok(())
}

/// The dictionaries of cubes with the names that were kept of them, in their order: each name has its place
/// among those of its dimension as its number. The only error is want of memory.
pub fn kept_dictionaries(
    alloc: Global,
    cubes: &[Schema],
    names: &NameLists,
) -> Result<Dicts, AllocError>
    requires few { length cubes.now ≤ MOST_CUBES }
    requires names { HaveKeptNames cubes.now names.now }
    ensures { IfOk result (λ dicts. dicts ≡ dictionaries_with_names cubes.now names.now) }
{
    let mut dicts = Dicts::new(alloc);
    'cubes: for (place, lists) in names.as_slice().iter().enumerate() {
        add_cube(&mut dicts, place as u32, &cubes[place], lists.as_slice())?;
    }
    Ok(dicts)
}
