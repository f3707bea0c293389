//! The canonical text of cubes.

ghost use Rattle.std.specs.Prelude.{◌≡◌, ◌++◌, OnOk, IfOk};
ghost use Rattle.std.specs.List.{flat_map};
ghost use Rattle.cube_language.specs.Cubes.{kind_text, dim_text, metric_text, cube_text, cubes_text};
ghost use Rattle.cube_schema.specs.Texts.{AreDeclared};

use crate::schema::Schema;
use cube_language::{Decl, DimDecl, put_u64};
use cube_values::Text;
use std::alloc::{AllocError, Global};

/// The canonical text of cubes that some text declares.
pub fn print_cubes(alloc: Global, cubes: &[Schema]) -> Result<Vec<u8>, AllocError>
    requires { AreDeclared cubes.now }
    ensures { IfOk result (λ text. text.items ≡ cubes_text cubes.now) }
{
    let mut out = Vec::new(alloc);
    'cubes: for cube in cubes {
        put_cube(&mut out, cube.decl())?;
    }
    Ok(out)
}

fn put_cube(out: &mut Vec<u8>, decl: &Decl) -> Result<(), AllocError>
    ensures { OnOk result (out.new.items ≡ out.old.items ++ cube_text decl.now) }
{
    out.extend_from_slice(b"cube ")?;
    out.extend_from_slice(decl.name.as_bytes())?;
    out.extend_from_slice(b"\n")?;
    put_dims(out, decl.dims.as_slice())?;
    put_metrics(out, decl.metrics.as_slice())?;
    Ok(())
}

fn kind_word(text: bool) -> &'static [u8]
    ensures { result.now ≡ kind_text text }
{
    if text { b"text" } else { b"int" }
}

fn put_dim(out: &mut Vec<u8>, dim: &DimDecl) -> Result<(), AllocError>
    ensures { OnOk result (out.new.items ≡ out.old.items ++ dim_text dim.now) }
{
    out.extend_from_slice(b"dim ")?;
    out.extend_from_slice(dim.name.as_bytes())?;
    out.extend_from_slice(b" ")?;
    out.extend_from_slice(kind_word(dim.text))?;
    out.extend_from_slice(b" ")?;
    put_u64(out, u64::from(dim.cardinality))?;
    out.extend_from_slice(b" ")?;
    put_u64(out, u64::from(dim.range))?;
    out.extend_from_slice(b"\n")?;
    Ok(())
}

fn put_dims(out: &mut Vec<u8>, dims: &[DimDecl]) -> Result<(), AllocError>
    ensures { OnOk result (out.new.items ≡ out.old.items ++ flat_map dim_text dims.now) }
{
    'dims: for dim in dims {
        put_dim(out, dim)?;
    }
    Ok(())
}

fn put_metric(out: &mut Vec<u8>, name: &Text) -> Result<(), AllocError>
    ensures { OnOk result (out.new.items ≡ out.old.items ++ metric_text name.now) }
{
    out.extend_from_slice(b"metric ")?;
    out.extend_from_slice(name.as_bytes())?;
    out.extend_from_slice(b"\n")?;
    Ok(())
}

fn put_metrics(out: &mut Vec<u8>, metrics: &[Text]) -> Result<(), AllocError>
    ensures { OnOk result (out.new.items ≡ out.old.items ++ flat_map metric_text metrics.now) }
{
    'metrics: for name in metrics {
        put_metric(out, name)?;
    }
    Ok(())
}
