//! The numbers of the texts that a DELETE compares with.

ghost use Rattle.std.specs.Prelude.{◌≡◌, ◌≤◌, ◌++◌, [], ◌∷◌, true, length, IfOk, OnOk};
ghost use Rattle.condition_spans.specs.CodedConditions.{values_of_test};
ghost use Rattle.condition_spans.specs.Codes.{texts_at, code_in, codes_among, codes_in};
ghost use Rattle.row_encoding.specs.FinalCodes.{dim_at, InTheEnd, IsDimText, Grow};
ghost use Rattle.row_encoding.specs.CodedValues.{IsTextValue, HaveText};
ghost use Rattle.row_encoding.specs.CodedTexts.{AreOfKind, AskTheirKinds, AreNames, ShortTextOf, ShortTextAmong, ComparesWith, HasPlaceIfShort, HavePlaces, HavePlacesAmong};

use crate::encoder::Encoder;
use crate::values::encode_text;
use condition_spans::values_of_test;
use cube_language::TEXT_BYTES;
use cube_schema::Schema;
use cube_values::{Condition, Text, Value};
use std::alloc::{AllocError, Global};

/// The number of a text, or None where no row can ever have it: it is too long, or finds no place.
fn number_of<E: Encoder>(
    encoder: &mut E,
    place: u32,
    cube: &Schema,
    dim: u32,
    text: &Text,
) -> Result<Option<u32>, AllocError>
    requires suits { E.suits encoder.old place cube.now }
    requires text { (dim_at cube.now.dims dim).text ≡ true }
    ensures number { IfOk result (λ number. InTheEnd (E.may_end encoder.new) place (λ lists.
        AreNames lists → number ≡ code_in (texts_at lists dim) text.now)) }
    ensures place { OnOk result (InTheEnd (E.may_end encoder.new) place (λ lists.
        HasPlaceIfShort (dim_at cube.now.dims dim) (texts_at lists dim) text.now)) }
    ensures grow { Grow E.may_end E.suits E.has_name E.keeps place cube.now (ShortTextOf dim text.now)
        encoder.old encoder.new }
{
    if text.len() > TEXT_BYTES {
        return Ok(None);
    }
    encode_text(encoder, place, cube, dim, text.as_str())
}

/// Appends the number of a value, if it is a text.
fn append_number<E: Encoder>(
    encoder: &mut E,
    place: u32,
    cube: &Schema,
    dim: u32,
    value: &Value,
    numbers: &mut Vec<Option<u32>>,
) -> Result<(), AllocError>
    requires suits { E.suits encoder.old place cube.now }
    requires kind { IsTextValue value.now → (dim_at cube.now.dims dim).text ≡ true }
    ensures numbers { OnOk result (InTheEnd (E.may_end encoder.new) place (λ lists.
        AreNames lists → numbers.new.items ≡
        numbers.old.items ++ codes_among (texts_at lists dim) (value.now ∷ []))) }
    ensures places { OnOk result (InTheEnd (E.may_end encoder.new) place (λ lists.
        HavePlacesAmong (dim_at cube.now.dims dim) (texts_at lists dim) (value.now ∷ []))) }
    ensures grow { Grow E.may_end E.suits E.has_name E.keeps place cube.now
        (ShortTextAmong dim (value.now ∷ [])) encoder.old encoder.new }
{
    if let Value::Text(text) = value {
        numbers.push(number_of(encoder, place, cube, dim, text)?)?;
    }
    Ok(())
}

/// Appends the numbers of the texts among values.
fn append_numbers<E: Encoder>(
    encoder: &mut E,
    place: u32,
    cube: &Schema,
    dim: u32,
    values: &[Value],
    numbers: &mut Vec<Option<u32>>,
) -> Result<(), AllocError>
    requires suits { E.suits encoder.old place cube.now }
    requires kind { AreOfKind (dim_at cube.now.dims dim) values.now }
    ensures numbers { OnOk result (InTheEnd (E.may_end encoder.new) place (λ lists.
        AreNames lists → numbers.new.items ≡
        numbers.old.items ++ codes_among (texts_at lists dim) values.now)) }
    ensures places { OnOk result (InTheEnd (E.may_end encoder.new) place (λ lists.
        HavePlacesAmong (dim_at cube.now.dims dim) (texts_at lists dim) values.now)) }
    ensures grow { Grow E.may_end E.suits E.has_name E.keeps place cube.now (ShortTextAmong dim values.now)
        encoder.old encoder.new }
{
    'values: for value in values {
        append_number(encoder, place, cube, dim, value, numbers)?;
    }
    Ok(())
}

/// The numbers of the texts that conditions compare dimensions of texts with, in order. A text that
/// no dictionary has is given to that of its dimension, since a row of an earlier epoch may still
/// bring it. None stands for a text that no row can ever have: it is too long, or finds no place.
/// The error is out of memory.
pub fn encode_texts<E: Encoder>(
    alloc: Global,
    encoder: &mut E,
    place: u32,
    cube: &Schema,
    conditions: &[Condition],
) -> Result<Vec<Option<u32>>, AllocError>
    requires suits { E.suits encoder.old place cube.now }
    requires kinds { AskTheirKinds cube.now.dims conditions.now }
    ensures numbers { IfOk result (λ numbers. InTheEnd (E.may_end encoder.new) place (λ lists.
        AreNames lists → numbers.items ≡ codes_in lists conditions.now)) }
    ensures places { OnOk result (InTheEnd (E.may_end encoder.new) place (λ lists.
        HavePlaces cube.now.dims lists conditions.now)) }
    ensures grow { Grow E.may_end E.suits E.has_name E.keeps place cube.now (ComparesWith conditions.now)
        encoder.old encoder.new }
{
    let mut numbers = Vec::new(alloc);
    'conditions: for condition in conditions {
        append_numbers(
            encoder,
            place,
            cube,
            condition.place,
            values_of_test(&condition.test),
            &mut numbers,
        )?;
    }
    Ok(numbers)
}
