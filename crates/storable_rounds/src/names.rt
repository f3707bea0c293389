//! The names of a round are texts.
ghost use Rattle.std.specs.Prelude.{IsUtf8};
ghost use Rattle.std.specs.List.{AllByRecursion};
ghost use Rattle.storable_rounds.specs.StorableParts.{HasTexts};

use cube_rounds::RoundCube;
use cube_values::{Text, Texts};

// Each text is UTF-8, as each look at its characters says.
fn texts_fit(texts: &[Text])
    ensures { AllByRecursion IsUtf8 texts.now }
{
    let mut left = texts;
    'texts: while let [text, rest @ ..] = left {
        let _characters = text.as_str();
        left = rest;
    }
}

fn lists_fit(lists: &[Texts])
    ensures { AllByRecursion (AllByRecursion IsUtf8) lists.now }
{
    let mut left = lists;
    'lists: while let [list, rest @ ..] = left {
        texts_fit(list.as_slice());
        left = rest;
    }
}

/// So are those of each cube.
pub(crate) fn names_fit(cubes: &[RoundCube])
    ensures { AllByRecursion HasTexts cubes.now }
{
    let mut left = cubes;
    'cubes: while let [cube, rest @ ..] = left {
        lists_fit(cube.names.as_slice());
        left = rest;
    }
}
