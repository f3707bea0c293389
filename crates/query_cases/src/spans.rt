//! Spans of conditions on a dimension of texts and one of numbers, worked out by hand.

ghost use Rattle.std.specs.Prelude.{◌≡◌, ◌<◌, IfOk, IsTrue, All, length};
ghost use Rattle.cube_values.specs.Shapes.{IsSoundShape};

use condition_spans::{append, codes_in, lists_at, narrow, span_for};
use cube_values::{
    Condition, NameLists, Shape, Size, Sizes, Span, Text, TextLists, Texts, Value, ValueTest,
    Values,
};
use std::alloc::{AllocError, Global};

/// Three texts, and five numbers in ranges of two.
fn two_dimensions(alloc: Global) -> Result<Shape, AllocError>
    ensures sound { IfOk result (λ shape. IsSoundShape shape) }
    ensures two { IfOk result (λ shape. length shape.sizes ≡ 2) }
{
    let texts = Size {
        cardinality: 3,
        range: 1,
    };
    let numbers = Size {
        cardinality: 5,
        range: 2,
    };
    let mut sizes = Sizes::new(alloc);
    sizes.push(texts)?;
    sizes.push(numbers)?;
    Ok(Shape { sizes })
}

fn are_within(conditions: &[Condition], dims: usize) -> bool
    ensures { IsTrue result → All (λ c. c.place < dims) conditions.now }
{
    conditions.iter().all(|c| (c.place as usize) < dims)
}

fn one_of(values: Vec<Value>) -> ValueTest {
    ValueTest::OneOf(Values::from_vec(values))
}

// One of some texts.
fn condition_of_texts(alloc: Global, texts: &str) -> Result<Condition, AllocError> {
    let mut values = Vec::new(alloc);
    for text in texts.split(' ') {
        values.push(Value::Text(Text::new(alloc, text)?))?;
    }
    Ok(Condition {
        place: 0,
        test: one_of(values),
    })
}

fn numbers_in(alloc: Global, text: &str) -> Result<Vec<i64>, AllocError> {
    let mut numbers = Vec::new(alloc);
    for word in text.split(' ') {
        numbers.push(word.parse::<i64>().map_err(|_| AllocError)?)?;
    }
    Ok(numbers)
}

// One of some numbers.
fn test_of_numbers(alloc: Global, numbers: &[i64]) -> Result<ValueTest, AllocError> {
    let mut values = Vec::new(alloc);
    for n in numbers {
        values.push(Value::Int(*n))?;
    }
    Ok(one_of(values))
}

fn condition_of_numbers(
    alloc: Global,
    word: &str,
    numbers: &[i64],
) -> Result<Condition, AllocError> {
    let test = match numbers {
        [n] if word == "number" => ValueTest::Equal(Value::Int(*n)),
        [first, last] if word == "from" => {
            ValueTest::Between(Value::Int(*first), Value::Int(*last))
        }
        _ if word == "numbers" => test_of_numbers(alloc, numbers)?,
        _ => return Err(AllocError),
    };
    Ok(Condition { place: 1, test })
}

// The condition of a text: a word for what it asks, and the values. A text that cannot be read is the error.
fn condition_in(alloc: Global, text: &str) -> Result<Condition, AllocError> {
    let (word, values) = text.split_once(' ').ok_or(AllocError)?;
    if word == "texts" {
        return condition_of_texts(alloc, values);
    }
    let numbers = numbers_in(alloc, values)?;
    condition_of_numbers(alloc, word, numbers.as_slice())
}

fn conditions_in(alloc: Global, text: &str) -> Result<Vec<Condition>, AllocError> {
    let mut conditions = Vec::new(alloc);
    if !text.is_empty() {
        for text in text.split(", ") {
            append(&mut conditions, Some(condition_in(alloc, text)?))?;
        }
    }
    Ok(conditions)
}

// The texts of the first dimension that are known.
fn known_texts(alloc: Global) -> Result<TextLists, AllocError> {
    let mut texts = Vec::new(alloc);
    texts.push(Text::new(alloc, "a")?)?;
    texts.push(Text::new(alloc, "b")?)?;
    let mut lists = TextLists::new(alloc);
    lists.push(Texts::from_vec(texts))?;
    Ok(lists)
}

fn codes_of(alloc: Global, conditions: &[Condition]) -> Result<Vec<Option<u32>>, AllocError> {
    let lists = known_texts(alloc)?;
    codes_in(alloc, lists.as_slice(), conditions)
}

// The span of conditions, where a and b are the known texts.
fn span_of(alloc: Global, conditions: &[Condition]) -> Result<Span, AllocError> {
    if !are_within(conditions, 2) {
        return Err(AllocError);
    }
    let shape = two_dimensions(alloc)?;
    let codes = codes_of(alloc, conditions)?;
    span_for(alloc, &shape, conditions, codes.as_slice())
}

fn span_in(alloc: Global, text: &str) -> Result<Span, AllocError> {
    let conditions = conditions_in(alloc, text)?;
    span_of(alloc, conditions.as_slice())
}

// Whether a coordinate is marked as one that is taken.
fn is_marked(marks: &str, coord: usize) -> bool {
    marks.as_bytes().get(coord) == Some(&b'1')
}

// Whether a span takes just the coordinates that are marked, for each dimension.
fn takes(span: &Span, texts: &str, numbers: &str) -> bool {
    for r in 0..3usize {
        for x in 0..5usize {
            let is_taken = is_marked(texts, r) && is_marked(numbers, x);
            if span.has(&[r as u32, x as u32]) != is_taken {
                return false;
            }
        }
    }
    !span.has(&[0])
}

/// Conditions, with the coordinates of each dimension that they take, where a and b are the known texts.
const TAKEN: &str = "\
|111|11111
texts b|010|11111
texts c a b a|110|11111
texts c|000|11111
number 4|111|00001
number 5|111|00000
numbers 3 -1 1 3|111|01010
from -2 1|111|11000
from 3 9|111|00011
from 3 1|111|00000
from 1 3, texts b a, numbers 4 3, texts c b|010|00010
from 1 3, from 2 4|111|00110";

// Whether the conditions of a row take what it says.
fn is_as_told(alloc: Global, row: &str) -> Result<bool, AllocError> {
    let (conditions, taken) = row.split_once('|').ok_or(AllocError)?;
    let (texts, numbers) = taken.split_once('|').ok_or(AllocError)?;
    let span = span_in(alloc, conditions)?;
    Ok(texts.len() == 3 && numbers.len() == 5 && takes(&span, texts, numbers))
}

#[test]
fn spans_by_hand(rt: HostRuntime) {
    for row in TAKEN.lines() {
        assert!(rt; is_as_told(rt.alloc(), row) == Ok(true), "{row}");
    }
}

fn has_no_names(alloc: Global) -> Result<bool, AllocError> {
    let mut names = NameLists::new(alloc);
    names.push(TextLists::new(alloc))?;
    Ok(lists_at(&names, 0).is_empty() && lists_at(&names, 1).is_empty())
}

#[test]
fn names_of_no_cube(rt: HostRuntime) {
    assert!(rt; has_no_names(rt.alloc()) == Ok(true));
    assert_eq!(rt; narrow(7), Ok(7));
}
