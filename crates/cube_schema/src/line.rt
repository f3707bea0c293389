//! What the words of a line say.

ghost use Rattle.std.specs.Prelude.{◌≡◌, option_copied, IsTrue, IfOk, IfSome};
ghost use Rattle.std.specs.Char.{is_ascii_digit};
ghost use Rattle.std.specs.List.{list_all};
ghost use Rattle.std.specs.Option.{option_map};
ghost use Rattle.std.specs.Str.{bytes_eq};
ghost use Rattle.std.specs.Str.Parse.{digits_value};
ghost use Rattle.cube_language.specs.Names.{is_name};
ghost use Rattle.cube_language.specs.CubesText.{words_of};
ghost use Rattle.cube_language.specs.Tokens.{is_digits};
ghost use Rattle.cube_schema.specs.Forms.{said_by, dim_of};
ghost use Rattle.cube_schema.specs.Reading.{only_word, kind_of_word, narrow, number_of_word, only_name, dim_words, line_in};

use crate::words::next_word;
use cube_language::{DimDecl, is_name, text_of};
use cube_values::Text;
use std::alloc::{AllocError, Global};

/// What a line says.
#[derive(Debug, Drop)]
pub(crate) enum Form {
    /// Nothing.
    Skipped,
    /// It begins the cube of this name.
    Cube(Text),
    /// It adds a dimension.
    Dim(DimDecl),
    /// It adds the metric of this name.
    Metric(Text),
}

#[tactic(auto, using(crate::proofs::Ascii::name_is_text))]
fn name_text(alloc: Global, name: &[u8]) -> Result<Text, AllocError>
    requires { IsTrue (is_name name.now) }
    ensures { IfOk result (λ text. text ≡ name.now) }
{
    Text::new(alloc, text_of(name))
}

fn is(word: &[u8], wanted: &[u8]) -> bool
    ensures { result ≡ bytes_eq word.now wanted.now }
{
    word == wanted
}

fn kind_of(word: &[u8]) -> Option<bool>
    ensures { result ≡ kind_of_word word.now }
{
    if is(word, b"text") {
        return Some(true);
    }
    if is(word, b"int") {
        return Some(false);
    }
    None
}

fn all_digits(bytes: &[u8]) -> bool
    ensures { result ≡ list_all is_ascii_digit bytes.now }
{
    bytes.iter().all(|byte| byte.is_ascii_digit())
}

#[tactic(auto, using(crate::proofs::Ascii::digits_are))]
fn is_digits(bytes: &[u8]) -> bool
    ensures { result ≡ is_digits bytes.now }
{
    !bytes.is_empty() && all_digits(bytes)
}

#[tactic(auto, using(crate::proofs::Ascii::digits_are_text, crate::proofs::Ascii::parsed))]
fn parse(digits: &[u8]) -> Option<u32>
    requires { IsTrue (is_digits digits.now) }
    ensures { result ≡ narrow (digits_value 10 digits.now) }
{
    text_of(digits).parse::<u32>().ok()
}

/// The number of 32 bits that a word of digits is, with any count of leading zeros.
fn number_of(word: &[u8]) -> Option<u32>
    ensures { result ≡ number_of_word word.now }
{
    if is_digits(word) { parse(word) } else { None }
}

/// The word that is the only one.
#[tactic(auto, unfolding(crate::specs::Reading::only_word))]
fn only_word(line: &[u8]) -> Option<&[u8]>
    ensures { option_copied result ≡ only_word (words_of line.now) }
{
    let (word, behind) = next_word(line)?;
    if next_word(behind).is_some() {
        return None;
    }
    Some(word)
}

#[tactic(auto, unfolding(crate::specs::Reading::only_name))]
fn only_name(alloc: Global, line: &[u8]) -> Result<Option<Text>, AllocError>
    ensures { IfOk result (λ name. name ≡ only_name (words_of line.now)) }
{
    match only_word(line) {
        Some(word) if is_name(word) => Ok(Some(name_text(alloc, word)?)),
        _ => Ok(None),
    }
}

/// A dimension with its name as bytes.
#[derive(Clone, Copy)]
struct DimWords<'a> {
    name: &'a [u8],
    text: bool,
    cardinality: u32,
    range: u32,
}

/// The words of a dimension.
#[tactic(auto, unfolding(crate::specs::Reading::dim_words))]
fn dim_words(line: &[u8]) -> Option<DimWords<'_>>
    ensures value { option_map dim_of result ≡ dim_words (words_of line.now) }
    ensures named { IfSome result (λ words. IsTrue (is_name words.name.now)) }
{
    let (name, behind) = next_word(line)?;
    let (kind, behind) = next_word(behind)?;
    let (cardinality, behind) = next_word(behind)?;
    let (range, behind) = next_word(behind)?;
    if next_word(behind).is_some() || !is_name(name) {
        return None;
    }
    let text = kind_of(kind)?;
    let cardinality = number_of(cardinality)?;
    let range = number_of(range)?;
    Some(DimWords {
        name,
        text,
        cardinality,
        range,
    })
}

fn dim_of(alloc: Global, line: &[u8]) -> Result<Option<DimDecl>, AllocError>
    ensures { IfOk result (λ dim. dim ≡ dim_words (words_of line.now)) }
{
    match dim_words(line) {
        Some(words) => Ok(Some(DimDecl {
            name: name_text(alloc, words.name)?,
            text: words.text,
            cardinality: words.cardinality,
            range: words.range,
        })),
        None => Ok(None),
    }
}

/// What a line says, or None where it is in no form.
#[tactic(auto, unfolding(crate::specs::Reading::line_in))]
pub(crate) fn form_of(alloc: Global, line: &[u8]) -> Result<Option<Form>, AllocError>
    ensures { IfOk result (λ form. option_map said_by form ≡ line_in (words_of line.now)) }
{
    let Some((word, behind)) = next_word(line) else {
        return Ok(Some(Form::Skipped));
    };
    if word.starts_with(b"#") {
        return Ok(Some(Form::Skipped));
    }
    if is(word, b"cube") {
        return Ok(only_name(alloc, behind)?.map(Form::Cube));
    }
    if is(word, b"metric") {
        return Ok(only_name(alloc, behind)?.map(Form::Metric));
    }
    if is(word, b"dim") {
        return Ok(dim_of(alloc, behind)?.map(Form::Dim));
    }
    Ok(None)
}
