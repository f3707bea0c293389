//! Each call once, with memory enough.

ghost use Rattle.std.specs.Prelude.{IfOk};
ghost use Rattle.cube_values.specs.Shapes.{IsSoundCube};
ghost use Rattle.names_dict.specs.Dictionaries.{IsTextDimension};

use crate::tables::first_other;
use cube_values::{CubeShape, Flags, Shape, Size, Sizes};
use names_dict::{Dict, Dicts};
use std::alloc::{AllocError, Global};

/// Encodes names, and shows their codes.
fn codes_shown(alloc: Global, dict: &mut Dict, names: &str) -> Result<String, AllocError> {
    let mut shown = String::new(alloc);
    for name in names.split(',') {
        let code = dict.encode(name)?;
        shown.push_str(format!(in alloc; "{code:?} ")?.as_str())?;
    }
    Ok(shown)
}

/// The names that a dictionary has from a number on, each in brackets.
fn names_shown(alloc: Global, dict: &Dict, from: u32) -> Result<String, AllocError> {
    let mut shown = String::new(alloc);
    if from <= dict.len() {
        for name in dict.copy_from(from)?.as_slice() {
            shown.push_str(format!(in alloc; "[{}]", name.as_str())?.as_str())?;
        }
    }
    Ok(shown)
}

/// How many names a dictionary has, the numbers of three, the first one, all, and those behind the second.
fn contents_shown(alloc: Global, dict: &Dict) -> Result<String, AllocError> {
    let first = if dict.len() > 0 { dict.name_of(0) } else { "" };
    let all = names_shown(alloc, dict, 0)?;
    let behind = names_shown(alloc, dict, 2)?;
    let a = dict.find("a");
    let empty = dict.find("");
    let c = dict.find("c");
    format!(in alloc;
        "{}: {a:?} {empty:?} {c:?} '{first}' {all} {behind}",
        dict.len()
    )
}

/// The codes of names by a dictionary of so many, and what it has then.
fn dict_shown(alloc: Global, asked: &str) -> Result<String, AllocError> {
    let Some((most, names)) = asked.split_once(':') else {
        return String::from_str(alloc, "no names");
    };
    let mut dict = Dict::new(alloc, if most == "2" { 2 } else { 0 });
    let codes = codes_shown(alloc, &mut dict, names)?;
    let contents = contents_shown(alloc, &dict)?;
    format!(in alloc; "{codes}{contents}")
}

const DICTIONARIES: &str = r"
2:a,,a,c,,c|Added(0) Added(1) Known(0) Full Known(1) Full 2: Some(0) Some(1) None 'a' [a][] |
0:a|Full 0: None None None ''  |
";

#[test]
fn numbers_names(rt: HostRuntime) {
    assert_eq!(rt; first_other(rt.alloc(), DICTIONARIES, dict_shown), Ok(None));
}

/// A dimension with two texts, and one of numbers.
fn two_dimensions(alloc: Global) -> Result<CubeShape, AllocError>
    ensures sound { IfOk result IsSoundCube }
    ensures text { IfOk result (λ shape. IsTextDimension shape 0) }
{
    let size = Size {
        cardinality: 2,
        range: 1,
    };
    Ok(CubeShape {
        shape: Shape {
            sizes: Sizes::from_vec(vec![in alloc; size, size]?),
        },
        texts: Flags::from_vec(vec![in alloc; true, false]?),
        metrics: 1,
    })
}

/// Encodes a name of the first dimension behind the number of its cube, and shows its code.
fn code_shown(
    alloc: Global,
    dicts: &mut Dicts,
    shape: &CubeShape,
    asked: &str,
) -> Result<String, AllocError>
    requires sound { IsSoundCube shape.now }
    requires text { IsTextDimension shape.now 0 }
{
    match asked.split_once(' ') {
        Some(("0", name)) => format!(in alloc; "{:?} ", dicts.encode(0, 0, shape, name)?),
        Some(("2", name)) => format!(in alloc; "{:?} ", dicts.encode(2, 0, shape, name)?),
        _ => String::from_str(alloc, "no name"),
    }
}

/// Encodes names of cubes, the first of which is added, and shows their codes.
fn codes_by_cube(
    alloc: Global,
    dicts: &mut Dicts,
    shape: &CubeShape,
    names: &str,
) -> Result<String, AllocError>
    requires sound { IsSoundCube shape.now }
    requires text { IsTextDimension shape.now 0 }
{
    dicts.add_cube(shape)?;
    let mut shown = String::new(alloc);
    for asked in names.split(',') {
        let code = code_shown(alloc, dicts, shape, asked)?;
        shown.push_str(code.as_str())?;
    }
    Ok(shown)
}

/// A cube, a dimension and a name or its number.
fn place_in(asked: &str) -> Option<(u32, u32, &str)> {
    let (cube, rest) = asked.split_once(' ')?;
    let (dim, name) = rest.split_once(' ')?;
    Some((cube.parse::<u32>().ok()?, dim.parse::<u32>().ok()?, name))
}

/// The number of a name, or the name of a number, where it has one.
fn place_shown(alloc: Global, dicts: &Dicts, asked: &str) -> Result<String, AllocError> {
    let Some((cube, dim, name)) = place_in(asked) else {
        return String::from_str(alloc, "no place");
    };
    match name.parse::<u32>() {
        Ok(number) => format!(in alloc; "{:?}", dicts.name_of(cube, dim, number)),
        Err(_) => format!(in alloc; "{:?}", dicts.find(cube, dim, name)),
    }
}

/// How many names the first dimension of the first cube has, and that of no cube.
fn lengths_shown(alloc: Global, dicts: &Dicts) -> Result<String, AllocError> {
    let first = dicts.copy_from(0, 0, 0)?.len();
    let none = dicts.copy_from(9, 9, 0)?.len();
    format!(in alloc; "{first} {none}")
}

/// Names of cubes. Those of cube 0 stand from the start, those of cube 2 are made at its first name, and cube 1 has none all
/// the time.
const NAMES: &str = "0 a,2 b,0 b,0 a,0 c,2 a,2 b";

/// The codes of the names, or what is found then.
fn found_shown(alloc: Global, asked: &str) -> Result<String, AllocError> {
    let shape = two_dimensions(alloc)?;
    let mut dicts = Dicts::new(alloc);
    let codes = codes_by_cube(alloc, &mut dicts, &shape, NAMES)?;
    match asked {
        "codes" => Ok(codes),
        "lengths" => lengths_shown(alloc, &dicts),
        _ => place_shown(alloc, &dicts, asked),
    }
}

const FOUND: &str = r#"
codes|Added(0) Added(0) Added(1) Known(0) Full Added(1) Known(0) |
0 0 b|Some(1)|
2 0 b|Some(0)|
2 0 c|None|
2 1 a|None|
2 2 a|None|
1 0 a|None|
3 0 a|None|
0 0 0|Some("a")|
0 0 1|Some("b")|
2 0 0|Some("b")|
0 0 2|None|
0 1 0|None|
1 0 0|None|
3 0 0|None|
lengths|2 0|
"#;

#[test]
fn codes_and_names_by_cubes(rt: HostRuntime) {
    assert_eq!(rt; first_other(rt.alloc(), FOUND, found_shown), Ok(None));
}
