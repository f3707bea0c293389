//! The symbols of the parts of statements.

ghost use Rattle.std.specs.Prelude.{◌≡◌, ◌++◌, [], ◌∷◌, List, pos, OnOk};
ghost use Rattle.cube_language.specs.declared.symbol.Symbol.{Symbol as Said};
ghost use Rattle.cube_language.specs.declared.symbol.Symbol.TheVariants as symbol;
ghost use Rattle.cube_language.specs.Grammar.{aggregate_form, bound_form, column_form, cond_form, item_form, kind_keyword, list_form, name_form, number_form, plain_form, separated, test_form, tuple_form, value_form};
ghost use Rattle.sql_tree.specs.Reading.{sign_symbol};

use crate::head::Sign;
use cube_language::{Column, Cond, Item, Key, Keyword, Symbol, Test};
use cube_values::{Bound, Text, Value, Values};
use std::alloc::AllocError;

/// Appends a symbol that says nothing but itself.
pub(crate) fn put_sign(out: &mut Vec<Symbol>, sign: Sign) -> Result<(), AllocError>
    ensures { OnOk result (out.new.items ≡ out.old.items ++ sign_symbol sign ∷ []) }
{
    match sign {
        Sign::Keyword(keyword) => out.push(Symbol::Keyword(keyword))?,
        Sign::Open => out.push(Symbol::Open)?,
        Sign::Close => out.push(Symbol::Close)?,
        Sign::Comma => out.push(Symbol::Comma)?,
        Sign::Star => out.push(Symbol::Star)?,
    }
    Ok(())
}

/// Appends a keyword.
pub(crate) fn put_keyword(out: &mut Vec<Symbol>, keyword: Keyword) -> Result<(), AllocError>
    ensures { OnOk result (out.new.items ≡ out.old.items ++ symbol.Keyword keyword ∷ []) }
{
    out.push(Symbol::Keyword(keyword))?;
    Ok(())
}

/// Appends a name.
pub(crate) fn put_name(out: &mut Vec<Symbol>, name: &Text) -> Result<(), AllocError>
    ensures { OnOk result (out.new.items ≡ out.old.items ++ symbol.Word name.now ∷ []) }
{
    out.push(Symbol::Word(name.clone()?))?;
    Ok(())
}

/// Appends a text.
pub(crate) fn put_text(out: &mut Vec<Symbol>, text: &Text) -> Result<(), AllocError>
    ensures { OnOk result (out.new.items ≡ out.old.items ++ symbol.Text text.now ∷ []) }
{
    out.push(Symbol::Text(text.clone()?))?;
    Ok(())
}

/// Appends a number.
pub(crate) fn put_number(out: &mut Vec<Symbol>, n: i64) -> Result<(), AllocError>
    ensures { OnOk result (out.new.items ≡ out.old.items ++ symbol.Number n ∷ []) }
{
    out.push(Symbol::Number(i128::from(n)))?;
    Ok(())
}

/// Appends a number without a sign.
pub(crate) fn put_count(out: &mut Vec<Symbol>, n: u64) -> Result<(), AllocError>
    ensures { OnOk result (out.new.items ≡ out.old.items ++ symbol.Number (pos n) ∷ []) }
{
    out.push(Symbol::Number(i128::from(n)))?;
    Ok(())
}

/// A part of a statement that has a form.
pub(crate) trait Form {
    /// Its symbols.
    ghost form: { Self → List Said };

    /// Appends them.
    fn put(&self, out: &mut Vec<Symbol>) -> Result<(), AllocError>
        ensures { OnOk result (out.new.items ≡ out.old.items ++ form self.now) };
}

/// Appends parts with a sign between each two.
pub(crate) fn put_separated<T: Form>(
    out: &mut Vec<Symbol>,
    parts: &[T],
    between: Sign,
) -> Result<(), AllocError>
    ensures { OnOk result (out.new.items ≡
        out.old.items ++ separated (sign_symbol between) T.form parts.now) }
{
    let [first, others @ ..] = parts else {
        return Ok(());
    };
    first.put(out)?;
    'others: for part in others {
        put_sign(out, between)?;
        part.put(out)?;
    }
    Ok(())
}

/// Appends parts in parentheses.
pub(crate) fn put_list<T: Form>(out: &mut Vec<Symbol>, parts: &[T]) -> Result<(), AllocError>
    ensures { OnOk result (out.new.items ≡ out.old.items ++ list_form T.form parts.now) }
{
    put_sign(out, Sign::Open)?;
    put_separated(out, parts, Sign::Comma)?;
    put_sign(out, Sign::Close)?;
    Ok(())
}

impl Form for Text {
    ghost form = { name_form };

    fn put(&self, out: &mut Vec<Symbol>) -> Result<(), AllocError> {
        put_name(out, self)
    }
}

impl Form for i64 {
    ghost form = { number_form };

    fn put(&self, out: &mut Vec<Symbol>) -> Result<(), AllocError> {
        put_number(out, *self)
    }
}

impl Form for Value {
    ghost form = { value_form };

    fn put(&self, out: &mut Vec<Symbol>) -> Result<(), AllocError> {
        match self {
            Value::Int(n) => put_number(out, *n),
            Value::Text(text) => put_text(out, text),
        }
    }
}

impl Form for Values {
    ghost form = { tuple_form };

    fn put(&self, out: &mut Vec<Symbol>) -> Result<(), AllocError> {
        put_list(out, self.as_slice())
    }
}

/// Appends an aggregate of a metric.
fn put_aggregate(out: &mut Vec<Symbol>, word: Keyword, metric: &Text) -> Result<(), AllocError>
    ensures { OnOk result (out.new.items ≡ out.old.items ++ aggregate_form word metric.now) }
{
    put_keyword(out, word)?;
    put_sign(out, Sign::Open)?;
    put_name(out, metric)?;
    put_sign(out, Sign::Close)?;
    Ok(())
}

impl Form for Item {
    ghost form = { item_form };

    fn put(&self, out: &mut Vec<Symbol>) -> Result<(), AllocError> {
        match self {
            Item::Plain(name) => put_name(out, name),
            Item::Sum(metric) => put_aggregate(out, Keyword::Sum, metric),
            Item::Min(metric) => put_aggregate(out, Keyword::Min, metric),
            Item::Max(metric) => put_aggregate(out, Keyword::Max, metric),
            Item::Avg(metric) => put_aggregate(out, Keyword::Avg, metric),
            Item::CountAll => {
                put_keyword(out, Keyword::Count)?;
                put_sign(out, Sign::Open)?;
                put_sign(out, Sign::Star)?;
                put_sign(out, Sign::Close)?;
                Ok(())
            }
        }
    }
}

impl Form for Cond {
    ghost form = { cond_form };

    fn put(&self, out: &mut Vec<Symbol>) -> Result<(), AllocError> {
        match self {
            Cond::Equal(name, wanted) => {
                put_name(out, name)?;
                out.push(Symbol::Equals)?;
                wanted.put(out)
            }
            Cond::In(name, wanted) => {
                put_name(out, name)?;
                put_keyword(out, Keyword::In)?;
                wanted.put(out)
            }
            Cond::Between(name, first, last) => {
                put_name(out, name)?;
                put_keyword(out, Keyword::Between)?;
                first.put(out)?;
                put_keyword(out, Keyword::And)?;
                last.put(out)
            }
        }
    }
}

impl Form for Bound {
    ghost form = { bound_form };

    fn put(&self, out: &mut Vec<Symbol>) -> Result<(), AllocError> {
        match self {
            Bound::Equal(n) => {
                out.push(Symbol::Equals)?;
                put_number(out, *n)
            }
            Bound::In(numbers) => {
                put_keyword(out, Keyword::In)?;
                put_list(out, numbers.as_slice())
            }
            Bound::Between(first, last) => {
                put_keyword(out, Keyword::Between)?;
                put_number(out, *first)?;
                put_keyword(out, Keyword::And)?;
                put_number(out, *last)
            }
        }
    }
}

impl Form for Test {
    ghost form = { test_form };

    fn put(&self, out: &mut Vec<Symbol>) -> Result<(), AllocError> {
        self.item.put(out)?;
        self.bound.put(out)?;
        Ok(())
    }
}

impl Form for Key {
    ghost form = { plain_form };

    fn put(&self, out: &mut Vec<Symbol>) -> Result<(), AllocError> {
        self.item.put(out)?;
        if self.desc {
            put_keyword(out, Keyword::Desc)?;
        }
        Ok(())
    }
}

/// The word of the kind of a dimension.
fn kind_keyword(text: bool) -> Keyword
    ensures { result ≡ kind_keyword text }
{
    if text { Keyword::Text } else { Keyword::Int }
}

impl Form for Column {
    ghost form = { column_form };

    fn put(&self, out: &mut Vec<Symbol>) -> Result<(), AllocError> {
        match self {
            Column::Dim(dim) => {
                put_keyword(out, Keyword::Dim)?;
                put_name(out, &dim.name)?;
                put_keyword(out, kind_keyword(dim.text))?;
                put_count(out, u64::from(dim.cardinality))?;
                put_count(out, u64::from(dim.range))
            }
            Column::Metric(name) => {
                put_keyword(out, Keyword::Metric)?;
                put_name(out, name)
            }
        }
    }
}
