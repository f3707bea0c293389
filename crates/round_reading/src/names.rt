//! The new names of a dimension.

ghost use Rattle.std.specs.Prelude.{◌≡◌, ℕ, ◌+◌, ◌≤◌, ◌++◌, [], ◌∷◌, List, length, nat_le, is_some, IfSome, OnSome, IfOk, OnOk};
ghost use Rattle.std.specs.List.{zip};
ghost use Rattle.round_fields.specs.Reading.{GivesRead, with_test, eight_from, repeat_step, each_step};
ghost use Rattle.round_reading.specs.Payload.{is_new_name, name_step, names_from, dim_names_from, dim_step};
ghost use Rattle.round_reading.specs.KnownNames.{HasJust};

use cube_language::DimDecl;
use cube_values::{CallError, Text, Texts};
use round_fields::{eight_of, short_of};
use std::alloc::{AllocError, Global};
use std::collections::HashSet;
use std::str;

/// A set of these names.
fn known_names(alloc: Global, names: &[Text]) -> Result<HashSet<&str>, AllocError>
    ensures { IfOk result (λ known. HasJust known names.now) }
{
    let mut known = HashSet::new(alloc);
    'names: for name in names {
        known.insert(name.as_str())?;
    }
    Ok(known)
}

/// Bytes as a name, where they are in UTF-8 and the set has no such name yet. It then has.
fn add_name<'a>(name: &'a [u8], known: &mut HashSet<&'a str>) -> Result<Option<&'a str>, AllocError>
    ensures text { IfOk result (λ found. IfSome found (λ text. text.now ≡ name.now)) }
    ensures is_new { (names : List (List ℕ)) → HasJust known.old names
        → IfOk result (λ found. is_some found ≡ is_new_name names name.now) }
    ensures known { (names : List (List ℕ)) → HasJust known.old names
        → IfOk result (λ found. OnSome found (HasJust known.new (names ++ name.now ∷ []))) }
{
    match str::from_utf8(name) {
        Ok(text) => {
            if known.insert(text)? {
                Ok(Some(text))
            } else {
                Ok(None)
            }
        }
        Err(_) => Ok(None),
    }
}

/// A name that differs from all before it, put behind them.
fn take_name<'a>(
    bytes: &'a [u8],
    alloc: Global,
    known: &mut HashSet<&'a str>,
    names: &mut Vec<Text>,
) -> Result<&'a [u8], CallError<usize>>
    ensures name { (earlier : List (List ℕ)) → HasJust known.old (earlier ++ names.old.items)
        → GivesRead (λ rest. (names.new.items, rest.now)) result
        (name_step earlier names.old.items bytes.now) }
    ensures known { (earlier : List (List ℕ)) → HasJust known.old (earlier ++ names.old.items)
        → OnOk result (HasJust known.new (earlier ++ names.new.items)) }
{
    let (name, rest) = short_of(bytes)?;
    match add_name(name, known)? {
        Some(text) => {
            names.push(Text::new(alloc, text)?)?;
            Ok(rest)
        }
        None => Err(CallError::Fault(bytes.len())),
    }
}

/// How many names come, where there is room for them behind the earlier ones.
fn count_within(
    bytes: &[u8],
    cardinality: u32,
    earlier: usize,
) -> Result<(u64, &[u8]), CallError<usize>>
    ensures { GivesRead (λ x. (x.0, x.1.now)) result
        (with_test (λ n. nat_le (earlier + n) cardinality) eight_from bytes.now) }
{
    let (count, rest) = eight_of(bytes)?;
    let room = u64::from(cardinality);
    let earlier = earlier as u64;
    if room < earlier || room - earlier < count {
        return Err(CallError::Fault(bytes.len()));
    }
    Ok((count, rest))
}

/// So many names that differ from the earlier ones and from each other.
fn counted_names<'a>(
    bytes: &'a [u8],
    alloc: Global,
    count: u64,
    earlier: &'a [Text],
) -> Result<(Vec<Text>, &'a [u8]), CallError<usize>>
    ensures { GivesRead (λ x. (x.0.items, x.1.now)) result
        (repeat_step (name_step earlier.now) count [] bytes.now) }
{
    let mut names = Vec::new(alloc);
    if count == 0 {
        return Ok((names, bytes));
    }
    let mut known = known_names(alloc, earlier)?;
    let mut rest = bytes;
    'names: for _ in 0..count {
        rest = take_name(rest, alloc, &mut known, &mut names)?;
    }
    Ok((names, rest))
}

/// New names of a dimension of texts, no more of them than there is room for.
#[tactic(auto, unfolding(crate::specs::Payload::names_from))]
fn names_of<'a>(
    bytes: &'a [u8],
    alloc: Global,
    cardinality: u32,
    earlier: &'a [Text],
) -> Result<(Vec<Text>, &'a [u8]), CallError<usize>>
    ensures { GivesRead (λ x. (x.0.items, x.1.now)) result
        (names_from cardinality earlier.now bytes.now) }
{
    let (count, rest) = count_within(bytes, cardinality, earlier.len())?;
    counted_names(rest, alloc, count, earlier)
}

/// The new names of a dimension.
fn dim_names<'a>(
    bytes: &'a [u8],
    alloc: Global,
    dim: &DimDecl,
    earlier: &'a Texts,
) -> Result<(Vec<Text>, &'a [u8]), CallError<usize>>
    ensures { GivesRead (λ x. (x.0.items, x.1.now)) result
        (dim_names_from (dim.now, earlier.now) bytes.now) }
{
    if dim.text {
        names_of(bytes, alloc, dim.cardinality, earlier.as_slice())
    } else {
        Ok((Vec::new(alloc), bytes))
    }
}

/// The new names of a dimension, put behind those of the dimensions before it.
fn take_dim<'a>(
    bytes: &'a [u8],
    alloc: Global,
    dim: &DimDecl,
    earlier: &'a Texts,
    lists: &mut Vec<Texts>,
) -> Result<&'a [u8], CallError<usize>>
    ensures { GivesRead (λ rest. (lists.new.items, rest.now)) result
        (dim_step (dim.now, earlier.now) lists.old.items bytes.now) }
{
    let (names, rest) = dim_names(bytes, alloc, dim, earlier)?;
    lists.push(Texts::from_vec(names))?;
    Ok(rest)
}

/// The new names of each dimension.
pub(crate) fn take_dims<'a>(
    bytes: &'a [u8],
    alloc: Global,
    dims: &[DimDecl],
    earlier: &'a [Texts],
) -> Result<(Vec<Texts>, &'a [u8]), CallError<usize>>
    requires { length earlier.now ≡ length dims.now }
    ensures { GivesRead (λ x. (x.0.items, x.1.now)) result
        (each_step dim_step (zip dims.now earlier.now) [] bytes.now) }
{
    let mut lists = Vec::new(alloc);
    let mut rest = bytes;
    'dims: for (i, dim) in dims.iter().enumerate() {
        rest = take_dim(rest, alloc, dim, &earlier[i], &mut lists)?;
    }
    Ok((lists, rest))
}
