//! The columns of a CREATE CUBE, read from tokens.

ghost use Rattle.std.specs.Prelude.{◌≡◌, IfOk};
ghost use Rattle.sql_tree.specs.Places.{AreIn, IsRest};
ghost use Rattle.sql_tree.specs.Reading.{ReadsAs, column_behind, kind_in, read_column, read_first};

use crate::head::ColumnHead;
use crate::phrase::Phrase;
use crate::read::{Miss, name, size};
use crate::symbol::{column_head_in, kind_in};
use cube_language::{Column, DimDecl, Token};
use cube_values::CallError;
use std::alloc::Global;

/// Whether a dimension has texts, by the word that stands first, and the tokens behind it.
fn kind<'a>(text: &str, tokens: &'a [Token]) -> Result<(bool, &'a [Token]), Miss>
    requires { AreIn text.now tokens.now }
    ensures read { ReadsAs (read_first kind_in) text.now tokens.now result }
    ensures rest { IfOk result (λ x. IsRest text.now tokens.now x.1.now) }
{
    let [first, rest @ ..] = tokens else {
        return Err(CallError::Fault(0));
    };
    match kind_in(text, first) {
        Some(kind) => Ok((kind, rest)),
        None => Err(CallError::Fault(tokens.len())),
    }
}

/// A column behind its first word, and the tokens behind it.
fn headed<'a>(
    alloc: Global,
    text: &str,
    tokens: &'a [Token],
    head: ColumnHead,
) -> Result<(Column, &'a [Token]), Miss>
    requires { AreIn text.now tokens.now }
    ensures read { ReadsAs (column_behind head) text.now tokens.now result }
    ensures rest { IfOk result (λ x. IsRest text.now tokens.now x.1.now) }
{
    match head {
        ColumnHead::Dim => {
            let (name, behind) = name(alloc, text, tokens)?;
            let (kind, behind) = kind(text, behind)?;
            let (cardinality, behind) = size(text, behind)?;
            let (range, rest) = size(text, behind)?;
            let dim = DimDecl {
                name,
                text: kind,
                cardinality,
                range,
            };
            Ok((Column::Dim(dim), rest))
        }
        ColumnHead::Metric => {
            let (name, rest) = name(alloc, text, tokens)?;
            Ok((Column::Metric(name), rest))
        }
    }
}

impl Phrase for Column {
    ghost reading = { read_column };

    #[tactic(auto, unfolding(crate::specs::Reading::read_column))]
    fn part<'a>(
        alloc: Global,
        text: &str,
        tokens: &'a [Token],
    ) -> Result<(Column, &'a [Token]), Miss> {
        let [first, behind @ ..] = tokens else {
            return Err(CallError::Fault(0));
        };
        match column_head_in(text, first) {
            Some(head) => headed(alloc, text, behind, head),
            None => Err(CallError::Fault(tokens.len())),
        }
    }
}
