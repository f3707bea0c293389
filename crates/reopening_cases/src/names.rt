//! Names that a store kept, as dictionaries.

use crate::bytes::STORE_OF_NAMES;
use kept_data::{kept_data_are_sound, kept_dictionaries};
use names_dict::Dicts;
use std::alloc::{AllocError, Global};
use std::test::*;
use store_reading::read_pair;

/// The dictionaries of a store, or none where it is not one.
fn dictionaries_of(alloc: Global, file: &[u8]) -> Result<Option<Dicts>, AllocError> {
    kept_data_are_sound();
    let Ok(opened) = read_pair(alloc, file, &[]) else {
        return Ok(None);
    };
    let dicts = kept_dictionaries(alloc, opened.kept.cubes.as_slice(), &opened.kept.names)?;
    Ok(Some(dicts))
}

/// Each name of x, z and u has its place as its number.
fn has_first_names(dicts: &Dicts) -> bool {
    dicts.find(0, 0, "p") == Some(0)
        && dicts.find(0, 0, "q") == Some(1)
        && dicts.find(0, 2, "r") == Some(0)
        && dicts.find(1, 0, "r") == Some(0)
}

/// Those of the second round stand behind those of the first.
fn has_later_names(dicts: &Dicts) -> bool {
    dicts.find(0, 0, "s") == Some(2) && dicts.find(1, 0, "p") == Some(1)
}

/// A name is found in its own dimension alone, and there are no names of numbers.
fn has_no_others(dicts: &Dicts) -> bool {
    dicts.find(0, 0, "r").is_none()
        && dicts.find(0, 1, "p").is_none()
        && dicts.find(1, 0, "q").is_none()
        && dicts.find(2, 0, "p").is_none()
}

fn keeps_names(alloc: Global) -> Result<bool, AllocError> {
    match dictionaries_of(alloc, STORE_OF_NAMES)? {
        Some(dicts) => {
            Ok(has_first_names(&dicts) && has_later_names(&dicts) && has_no_others(&dicts))
        }
        None => Ok(false),
    }
}

#[test]
fn names_are_kept(rt: HostRuntime) {
    assert!(rt; keeps_names(rt.alloc()) == Ok(true));
}
