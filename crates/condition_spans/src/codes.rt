//! The codes of the texts of conditions, by the texts of each dimension.

ghost use Rattle.std.specs.Prelude.{◌≡◌, ◌++◌, [], ◌∷◌, IfOk, OnOk};
ghost use Rattle.std.specs.List.{position_from};
ghost use Rattle.std.specs.Str.{bytes_eq};
ghost use Rattle.condition_spans.specs.Codes.{texts_at, lists_at, code_in, codes_among, codes_in};

use crate::part::values_of_test;
use cube_values::{Condition, NameLists, Text, Texts, Value};
use std::alloc::{AllocError, Global};

/// The texts of each dimension of the cube at a place.
pub fn lists_at(names: &NameLists, cube: u32) -> &[Texts]
    ensures { result.now ≡ lists_at names.now cube }
{
    match names.as_slice().get(cube as usize) {
        Some(lists) => lists.as_slice(),
        None => &[],
    }
}

/// The texts of the dimension at a place.
fn texts_at(lists: &[Texts], place: u32) -> &[Text]
    ensures { result.now ≡ texts_at lists.now place }
{
    match lists.get(place as usize) {
        Some(texts) => texts.as_slice(),
        None => &[],
    }
}

fn is_same(a: &Text, b: &Text) -> bool
    ensures { result ≡ bytes_eq a.now b.now }
{
    a.as_bytes() == b.as_bytes()
}

/// The place of a text among texts.
fn text_place(texts: &[Text], text: &Text) -> Option<usize>
    ensures { result ≡ position_from (bytes_eq text.now) 0 texts.now }
{
    let mut place = 0;
    let mut left = texts;
    'texts: while let [other, rest @ ..] = left {
        if is_same(text, other) {
            return Some(place);
        }
        place += 1;
        left = rest;
    }
    None
}

/// A place in 32 bits. A list that has more places than that counts as one for which memory is wanted.
pub fn narrow(place: usize) -> Result<u32, AllocError>
    ensures { IfOk result (λ p. p ≡ place) }
{
    match u32::try_from(place) {
        Ok(narrow) => Ok(narrow),
        Err(_) => Err(AllocError),
    }
}

/// The code of a text.
fn code_in(texts: &[Text], text: &Text) -> Result<Option<u32>, AllocError>
    ensures { IfOk result (λ code. code ≡ code_in texts.now text.now) }
{
    match text_place(texts, text) {
        Some(place) => Ok(Some(narrow(place)?)),
        None => Ok(None),
    }
}

/// Appends the code of a value, if it is a text.
fn append_code(
    codes: &mut Vec<Option<u32>>,
    texts: &[Text],
    value: &Value,
) -> Result<(), AllocError>
    ensures { OnOk result (codes.new.items ≡ codes.old.items
        ++ codes_among texts.now (value.now ∷ [])) }
{
    if let Value::Text(text) = value {
        codes.push(code_in(texts, text)?)?;
    }
    Ok(())
}

/// Appends the codes of the texts among values.
fn append_codes(
    codes: &mut Vec<Option<u32>>,
    texts: &[Text],
    values: &[Value],
) -> Result<(), AllocError>
    ensures { OnOk result (codes.new.items ≡ codes.old.items ++ codes_among texts.now values.now) }
{
    let mut left = values;
    'values: while let [value, rest @ ..] = left {
        append_code(codes, texts, value)?;
        left = rest;
    }
    Ok(())
}

/// The codes of the texts of conditions, in order. A text takes time by the number of texts of its dimension.
pub fn codes_in(
    alloc: Global,
    lists: &[Texts],
    conditions: &[Condition],
) -> Result<Vec<Option<u32>>, AllocError>
    ensures { IfOk result (λ codes. codes.items ≡ codes_in lists.now conditions.now) }
{
    let mut codes = Vec::new(alloc);
    let mut left = conditions;
    'conditions: while let [condition, rest @ ..] = left {
        append_codes(
            &mut codes,
            texts_at(lists, condition.place),
            values_of_test(&condition.test),
        )?;
        left = rest;
    }
    Ok(codes)
}
