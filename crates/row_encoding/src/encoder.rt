//! What gives texts their codes.

ghost use Rattle.std.specs.Prelude.{◌≡◌, ℕ, ◌<◌, ◌≤◌, true, List, length, IfOk, IfSome};
ghost use Rattle.cube_language.specs.declared.bad_row.TheConstants.{TEXT_BYTES};
ghost use Rattle.cube_language.specs.declared.decl.Decl.{Decl};
ghost use Rattle.condition_spans.specs.Codes.{texts_at};
ghost use Rattle.row_encoding.specs.FinalCodes.{dim_at, code_number, IsFinalNumber, InTheEnd, IsDimText, CarriesOn, Grow};

use cube_schema::Schema;
use names_dict::Code;
use std::alloc::AllocError;

/// Dictionaries that texts are given to. Others may give names to them meanwhile: so a contract
/// speaks of the names that they may end with, and holds for each of these.
pub trait Encoder {
    // the names, by cube and dimension, that its dictionaries may end with
    ghost may_end: { Self → List (List (List (List ℕ))) → Type 0 };

    // the dictionaries of the cube at a place are those of this declaration, or are not made yet
    ghost suits: { Self → ℕ → Decl → Type 0 };

    // the names that it has or was given, by the places of cube and dimension
    ghost has_name: { Self → ℕ → ℕ → List ℕ → Type 0 };

    // the numbers that it has given to texts, by the places of cube and dimension
    ghost has_given: { Self → ℕ → ℕ → ℕ → Type 0 };

    // what else there is of it stays from one state to another
    ghost keeps: { Self → Self → Type 0 };

    /// The code of a text in a dimension of texts of the cube at a place. The error is out of
    /// memory.
    fn encode(
        &mut self,
        place: u32,
        cube: &Schema,
        dim: u32,
        text: &str,
    ) -> Result<Code, AllocError>
        requires suits { suits self.old place cube.now }
        requires text { (dim_at cube.now.dims dim).text ≡ true }
        requires short { length text.now ≤ TEXT_BYTES }
        ensures code { IfOk result (λ code. InTheEnd (may_end self.new) place (λ lists.
            IsFinalNumber (dim_at cube.now.dims dim) (texts_at lists dim) text.now
            (code_number code))) }
        ensures inside { IfOk result (λ code.
            IfSome (code_number code) (λ n. n < (dim_at cube.now.dims dim).cardinality)) }
        ensures given { IfOk result (λ code.
            IfSome (code_number code) (has_given self.new place dim)) }
        ensures grow { Grow may_end suits has_name keeps place cube.now (IsDimText dim text.now)
            self.old self.new };

    // what stays, stays on
    ghost carries_on: { CarriesOn keeps has_given };
}
