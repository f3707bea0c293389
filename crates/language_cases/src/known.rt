//! Texts that are learned once and again, near ones, and so many that hints are made anew.

use crate::tables::first_other;
use known_names::Known;
use std::alloc::{AllocError, Global};

/// Learns a text, where a step gives it a code, and shows the code that the text then has.
fn step_shown(alloc: Global, known: &mut Known, step: &str) -> Result<String, AllocError> {
    let mut asked = step;
    if let Some((text, code)) = step.split_once('=') {
        let Ok(code) = code.parse::<u32>() else {
            return String::from_str(alloc, "no code");
        };
        known.learn(text.as_bytes(), code)?;
        asked = text;
    }
    format!(in alloc; "{:?};", known.find(asked.as_bytes()))
}

/// The codes that texts have behind each step.
fn steps_shown(alloc: Global, steps: &str) -> Result<String, AllocError> {
    let mut known = Known::new(alloc);
    let mut shown = String::new(alloc);
    for step in steps.split(';') {
        let code = step_shown(alloc, &mut known, step)?;
        shown.push_str(code.as_str())?;
    }
    Ok(shown)
}

const LEARNED: &str = r"
CA;CA=0;=7;C=1;CA=9;San Francisco, California=4294967295;San Francisco, Californib=2;=3;A;San Francisco, California |None;Some(0);Some(7);Some(1);Some(0);Some(4294967295);Some(2);Some(7);None;None;|
";

#[test]
fn a_text_keeps_its_first_code(rt: HostRuntime) {
    assert_eq!(rt; first_other(rt.alloc(), LEARNED, steps_shown), Ok(None));
}

/// Whether a text is new, and is then learned with its number.
fn is_learned(alloc: Global, known: &mut Known, n: u32) -> Result<bool, AllocError> {
    let text = format!(in alloc; "name {n}")?;
    let is_new = known.find(text.as_bytes()).is_none();
    known.learn(text.as_bytes(), n)?;
    Ok(is_new)
}

fn is_known(alloc: Global, known: &Known, n: u32) -> Result<bool, AllocError> {
    let text = format!(in alloc; "name {n}")?;
    Ok(known.find(text.as_bytes()) == Some(n))
}

/// The first of a thousand texts that is not learned or not known then.
fn first_lost(alloc: Global) -> Result<Option<u32>, AllocError> {
    let mut known = Known::new(alloc);
    for n in 0..1_000u32 {
        if !is_learned(alloc, &mut known, n)? {
            return Ok(Some(n));
        }
    }
    for n in 0..1_000u32 {
        if !is_known(alloc, &known, n)? {
            return Ok(Some(n));
        }
    }
    Ok(None)
}

#[test]
fn many_texts(rt: HostRuntime) {
    assert_eq!(rt; first_lost(rt.alloc()), Ok(None));
}
