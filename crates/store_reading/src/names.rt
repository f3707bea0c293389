//! The names of cubes with those of a round behind them.

ghost use Rattle.std.specs.Prelude.{◌≡◌, ◌++◌, map, length, IfOk, OnOk};
ghost use Rattle.std.specs.List.{zip};
ghost use Rattle.cube_rounds.specs.Demands.{no_names, names_with};
ghost use Rattle.store_reading.specs.Parts.{HaveNameLists, all_names_with};

use cube_language::Decl;
use cube_rounds::RoundCube;
use cube_values::{NameLists, Text, TextLists, Texts};
use std::alloc::{AllocError, Global};
use std::mem;

/// Puts names behind a list.
fn add_names(list: &mut Texts, more: &[Text]) -> Result<(), AllocError>
    ensures { OnOk result (list.new ≡ list.old ++ more.now) }
{
    'names: for name in more {
        list.push(name.copy()?)?;
    }
    Ok(())
}

/// Puts the names of each dimension behind its list.
fn add_lists(alloc: Global, lists: &mut TextLists, more: &[Texts]) -> Result<(), AllocError>
    requires { length lists.old ≡ length more.now }
    ensures { OnOk result (lists.new ≡ names_with lists.old more.now) }
{
    let mut all = mem::replace(lists, TextLists::new(alloc)).into_vec();
    'dims: for (i, names) in more.iter().enumerate() {
        add_names(&mut all[i], names.as_slice())?;
    }
    *lists = TextLists::from_vec(all);
    Ok(())
}

/// A list without names for each dimension.
fn no_names(alloc: Global, cube: &Decl) -> Result<TextLists, AllocError>
    ensures { IfOk result (λ lists. lists ≡ no_names cube.now) }
{
    let mut lists = TextLists::new(alloc);
    'dims: for _ in cube.dims.as_slice() {
        lists.push(Texts::new(alloc))?;
    }
    Ok(lists)
}

/// The names with empty lists for new cubes behind them.
fn with_made(alloc: Global, names: NameLists, made: &[Decl]) -> Result<NameLists, AllocError>
    ensures { IfOk result (λ all. all ≡ names ++ map no_names made.now) }
{
    let mut all = names;
    'cubes: for cube in made {
        all.push(no_names(alloc, cube)?)?;
    }
    Ok(all)
}

/// The names of each cube with the new ones of a round behind them.
pub(crate) fn names_behind(
    alloc: Global,
    names: NameLists,
    made: &[Decl],
    parts: &[RoundCube],
) -> Result<NameLists, AllocError>
    requires { HaveNameLists (names ++ map no_names made.now) parts.now }
    ensures { IfOk result (λ all.
        all ≡ all_names_with (names ++ map no_names made.now) parts.now) }
{
    let mut all = with_made(alloc, names, made)?.into_vec();
    'cubes: for (i, part) in parts.iter().enumerate() {
        add_lists(alloc, &mut all[i], part.names.as_slice())?;
    }
    Ok(NameLists::from_vec(all))
}
