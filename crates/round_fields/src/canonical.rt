//! Canonical texts of cubes.

ghost use Rattle.std.specs.Prelude.{◌≡◌, ◌↔◌, ℕ, List, Option, IsTrue, IfOk};
ghost use Rattle.std.specs.Option.{option_map};
ghost use Rattle.cube_language.specs.declared.decl.Decl.{Decl};
ghost use Rattle.cube_language.specs.Cubes.{cubes_text};
ghost use Rattle.cube_schema.specs.Texts.{AreDeclared};
ghost use Rattle.round_fields.specs.Canonical.{TellsCubes};

use cube_schema::{Schema, a_text_declares_or_has_one_fault, print_cubes, read_cubes};
use cube_values::CallError;
use std::alloc::{AllocError, Global};

/// Whether a text is the canonical text of these cubes.
fn is_canonical(alloc: Global, text: &[u8], cubes: &[Schema]) -> Result<bool, AllocError>
    requires { AreDeclared cubes.now }
    ensures { IfOk result (λ same. IsTrue same ↔ (text.now ≡ cubes_text cubes.now)) }
{
    let printed = print_cubes(alloc, cubes)?;
    Ok(text == printed.as_slice())
}

/// The cubes of which a text is the canonical text.
pub fn canonical_cubes(alloc: Global, text: &[u8]) -> Result<Option<Vec<Schema>>, AllocError>
    ensures { (told : List ℕ → Option (List Decl)) → TellsCubes told
        → IfOk result (λ found. told text.now ≡ option_map (λ schemas. schemas.items) found) }
{
    a_text_declares_or_has_one_fault();
    match read_cubes(alloc, text) {
        Ok(cubes) => {
            let canonical = is_canonical(alloc, text, cubes.as_slice())?;
            if canonical { Ok(Some(cubes)) } else { Ok(None) }
        }
        Err(CallError::Fault(_)) => Ok(None),
        Err(CallError::NoMemory) => Err(AllocError),
    }
}
