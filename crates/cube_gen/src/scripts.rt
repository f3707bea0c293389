//! The cubes text, and the scripts that load the files.

ghost use Rattle.std.specs.Prelude.{◌≡◌, ◌∷◌, [], IfOk};
ghost use Rattle.cube_gen.specs.Generated.{part_name, script_text, visits};
ghost use Rattle.cube_language.specs.Cubes as cubes;

use cube_language::put_u64;
use cube_values::Text;
use std::alloc::{AllocError, Global};

/// The text of the cube that is loaded.
pub fn cubes_text() -> &'static str
    ensures { result.now ≡ cubes.cubes_text (visits ∷ []) }
{
    "cube visits\ndim region text 8 1\ndim day int 365 31\nmetric likes\n"
}

/// The name of a session's file.
pub fn part_name(alloc: Global, session: u32) -> Result<Text, AllocError>
    ensures { IfOk result (λ name. name ≡ part_name session) }
{
    Ok(Text::from_string(format!(in alloc; "part{session}.csv")?))
}

/// The script of a session, which loads its file.
pub fn script(alloc: Global, session: u32) -> Result<Vec<u8>, AllocError>
    ensures { IfOk result (λ text. text.items ≡ script_text session) }
{
    let mut out = Vec::from_slice(alloc, b"LOAD visits FROM 'part")?;
    put_u64(&mut out, u64::from(session))?;
    out.extend_from_slice(b".csv' REJECT 0;")?;
    Ok(out)
}
