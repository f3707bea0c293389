//! Statements, read from tokens.

ghost use Rattle.std.specs.Prelude.{◌≡◌, [], IfOk};
ghost use Rattle.cube_language.specs.Symbols.{symbols_of};
ghost use Rattle.sql_tree.specs.Places.{AreIn, IsRest};
ghost use Rattle.sql_tree.specs.Reading.{ReadsAs, Gives, read_begun, read_by, read_create, read_delete, read_group, read_insert, read_load, read_select, read_selection, read_show, read_statement, read_watch, statement_behind};

use crate::condition::conditions;
use crate::head::{Selection, Shown, Sign, Verb};
use crate::phrase::{enclosed, listed};
use crate::read::{Miss, after, count, name, path, sign};
use crate::symbol::{shown_in, verb_in};
use crate::top::{having, limit, order};
use crate::written::{decl_of, keys_of};
use cube_language::{Keyword, Names, Statement, Token};
use cube_values::CallError;
use std::alloc::Global;

/// `BY name, ..`, and the tokens behind it.
#[tactic(auto, unfolding(crate::specs::Reading::read_by))]
fn names<'a>(alloc: Global, text: &str, tokens: &'a [Token]) -> Result<(Names, &'a [Token]), Miss>
    requires { AreIn text.now tokens.now }
    ensures read { ReadsAs read_by text.now tokens.now result }
    ensures rest { IfOk result (λ x. IsRest text.now tokens.now x.1.now) }
{
    let behind = sign(text, tokens, Sign::Keyword(Keyword::By))?;
    listed(alloc, text, behind, Sign::Comma)
}

/// `GROUP BY name, ..`, no name where it does not come, and the tokens behind it.
#[tactic(auto, unfolding(crate::specs::Reading::read_group, crate::specs::Reading::optional))]
fn group<'a>(alloc: Global, text: &str, tokens: &'a [Token]) -> Result<(Names, &'a [Token]), Miss>
    requires { AreIn text.now tokens.now }
    ensures read { ReadsAs read_group text.now tokens.now result }
    ensures rest { IfOk result (λ x. IsRest text.now tokens.now x.1.now) }
{
    match after(text, tokens, Sign::Keyword(Keyword::Group)) {
        Some(behind) => names(alloc, text, behind),
        None => Ok((Names::new(alloc), tokens)),
    }
}

/// `items FROM cube WHERE .. GROUP BY ..`, and the tokens behind it.
#[tactic(auto, unfolding(crate::specs::Reading::read_selection))]
fn selection<'a>(
    alloc: Global,
    text: &str,
    tokens: &'a [Token],
) -> Result<(Selection, &'a [Token]), Miss>
    requires { AreIn text.now tokens.now }
    ensures read { ReadsAs read_selection text.now tokens.now result }
    ensures rest { IfOk result (λ x. IsRest text.now tokens.now x.1.now) }
{
    let (items, behind) = listed(alloc, text, tokens, Sign::Comma)?;
    let behind = sign(text, behind, Sign::Keyword(Keyword::From))?;
    let (cube, behind) = name(alloc, text, behind)?;
    let (conds, behind) = conditions(alloc, text, behind)?;
    let (group, rest) = group(alloc, text, behind)?;
    let asked = Selection {
        items,
        cube,
        conds,
        group,
    };
    Ok((asked, rest))
}

/// A SELECT behind its first word, and the tokens behind it.
#[tactic(auto, unfolding(crate::specs::Reading::read_select))]
fn select<'a>(
    alloc: Global,
    text: &str,
    tokens: &'a [Token],
) -> Result<(Statement, &'a [Token]), Miss>
    requires { AreIn text.now tokens.now }
    ensures read { ReadsAs read_select text.now tokens.now result }
    ensures rest { IfOk result (λ x. IsRest text.now tokens.now x.1.now) }
{
    let (asked, behind) = selection(alloc, text, tokens)?;
    let (having, behind) = having(alloc, text, behind)?;
    let (keys, behind) = order(alloc, text, behind)?;
    let (limit, rest) = limit(text, behind)?;
    let select = Statement::Select {
        items: asked.items,
        cube: asked.cube,
        conds: asked.conds,
        group: asked.group,
        having,
        order: keys_of(alloc, keys)?,
        limit,
    };
    Ok((select, rest))
}

/// `SELECT ..`, which is watched, and the tokens behind it.
#[tactic(auto, unfolding(crate::specs::Reading::read_watch))]
fn watch<'a>(
    alloc: Global,
    text: &str,
    tokens: &'a [Token],
) -> Result<(Statement, &'a [Token]), Miss>
    requires { AreIn text.now tokens.now }
    ensures read { ReadsAs read_watch text.now tokens.now result }
    ensures rest { IfOk result (λ x. IsRest text.now tokens.now x.1.now) }
{
    let behind = sign(text, tokens, Sign::Keyword(Keyword::Select))?;
    let (asked, rest) = selection(alloc, text, behind)?;
    let watch = Statement::Watch {
        items: asked.items,
        cube: asked.cube,
        conds: asked.conds,
        group: asked.group,
    };
    Ok((watch, rest))
}

/// `CUBE name (column, ..)`, and the tokens behind it.
#[tactic(auto, unfolding(crate::specs::Reading::read_create))]
fn create<'a>(
    alloc: Global,
    text: &str,
    tokens: &'a [Token],
) -> Result<(Statement, &'a [Token]), Miss>
    requires { AreIn text.now tokens.now }
    ensures read { ReadsAs read_create text.now tokens.now result }
    ensures rest { IfOk result (λ x. IsRest text.now tokens.now x.1.now) }
{
    let behind = sign(text, tokens, Sign::Keyword(Keyword::Cube))?;
    let (name, behind) = name(alloc, text, behind)?;
    let (columns, rest) = enclosed(alloc, text, behind)?;
    let decl = decl_of(alloc, name, columns)?;
    Ok((Statement::CreateCube { decl }, rest))
}

/// What is shown, and the tokens behind it.
#[tactic(auto, unfolding(crate::specs::Reading::read_show))]
fn show<'a>(text: &str, tokens: &'a [Token]) -> Result<(Statement, &'a [Token]), Miss>
    requires { AreIn text.now tokens.now }
    ensures read { ReadsAs read_show text.now tokens.now result }
    ensures rest { IfOk result (λ x. IsRest text.now tokens.now x.1.now) }
{
    let [first, rest @ ..] = tokens else {
        return Err(CallError::Fault(0));
    };
    match shown_in(text, first) {
        Some(Shown::Epochs) => Ok((Statement::ShowEpochs, rest)),
        Some(Shown::Watch) => Ok((Statement::ShowWatch, rest)),
        None => Err(CallError::Fault(tokens.len())),
    }
}

/// `INTO cube VALUES tuple, ..`, and the tokens behind it.
#[tactic(auto, unfolding(crate::specs::Reading::read_insert))]
fn insert<'a>(
    alloc: Global,
    text: &str,
    tokens: &'a [Token],
) -> Result<(Statement, &'a [Token]), Miss>
    requires { AreIn text.now tokens.now }
    ensures read { ReadsAs read_insert text.now tokens.now result }
    ensures rest { IfOk result (λ x. IsRest text.now tokens.now x.1.now) }
{
    let behind = sign(text, tokens, Sign::Keyword(Keyword::Into))?;
    let (cube, behind) = name(alloc, text, behind)?;
    let behind = sign(text, behind, Sign::Keyword(Keyword::Values))?;
    let (rows, rest) = listed(alloc, text, behind, Sign::Comma)?;
    Ok((Statement::Insert { cube, rows }, rest))
}

/// `cube FROM path REJECT count`, and the tokens behind it.
#[tactic(auto, unfolding(crate::specs::Reading::read_load))]
fn load<'a>(
    alloc: Global,
    text: &str,
    tokens: &'a [Token],
) -> Result<(Statement, &'a [Token]), Miss>
    requires { AreIn text.now tokens.now }
    ensures read { ReadsAs read_load text.now tokens.now result }
    ensures rest { IfOk result (λ x. IsRest text.now tokens.now x.1.now) }
{
    let (cube, behind) = name(alloc, text, tokens)?;
    let behind = sign(text, behind, Sign::Keyword(Keyword::From))?;
    let (path, behind) = path(alloc, text, behind)?;
    let behind = sign(text, behind, Sign::Keyword(Keyword::Reject))?;
    let (reject, rest) = count(text, behind)?;
    Ok((Statement::Load { cube, path, reject }, rest))
}

/// `FROM cube WHERE ..`, and the tokens behind it.
#[tactic(auto, unfolding(crate::specs::Reading::read_delete))]
fn delete<'a>(
    alloc: Global,
    text: &str,
    tokens: &'a [Token],
) -> Result<(Statement, &'a [Token]), Miss>
    requires { AreIn text.now tokens.now }
    ensures read { ReadsAs read_delete text.now tokens.now result }
    ensures rest { IfOk result (λ x. IsRest text.now tokens.now x.1.now) }
{
    let behind = sign(text, tokens, Sign::Keyword(Keyword::From))?;
    let (cube, behind) = name(alloc, text, behind)?;
    let (conds, rest) = conditions(alloc, text, behind)?;
    Ok((Statement::Delete { cube, conds }, rest))
}

/// A statement behind its first word, and the tokens behind it.
fn formed<'a>(
    alloc: Global,
    text: &str,
    tokens: &'a [Token],
    verb: Verb,
) -> Result<(Statement, &'a [Token]), Miss>
    requires { AreIn text.now tokens.now }
    ensures read { ReadsAs (statement_behind verb) text.now tokens.now result }
    ensures rest { IfOk result (λ x. IsRest text.now tokens.now x.1.now) }
{
    match verb {
        Verb::Select => select(alloc, text, tokens),
        Verb::Insert => insert(alloc, text, tokens),
        Verb::Load => load(alloc, text, tokens),
        Verb::Delete => delete(alloc, text, tokens),
        Verb::Begin => Ok((Statement::Begin, tokens)),
        Verb::Commit => Ok((Statement::Commit, tokens)),
        Verb::Rollback => Ok((Statement::Rollback, tokens)),
        Verb::Flush => Ok((Statement::Flush, tokens)),
        Verb::Purge => Ok((Statement::Purge, tokens)),
        Verb::Show => show(text, tokens),
        Verb::Create => create(alloc, text, tokens),
        Verb::Watch => watch(alloc, text, tokens),
    }
}

/// A statement, and the tokens behind it.
#[tactic(auto, unfolding(crate::specs::Reading::read_begun))]
fn begun<'a>(
    alloc: Global,
    text: &str,
    tokens: &'a [Token],
) -> Result<(Statement, &'a [Token]), Miss>
    requires { AreIn text.now tokens.now }
    ensures read { ReadsAs read_begun text.now tokens.now result }
    ensures rest { IfOk result (λ x. IsRest text.now tokens.now x.1.now) }
{
    let [first, behind @ ..] = tokens else {
        return Err(CallError::Fault(0));
    };
    match verb_in(text, first) {
        Some(verb) => formed(alloc, text, behind, verb),
        None => Err(CallError::Fault(tokens.len())),
    }
}

/// The statement that the tokens say, all of them.
#[tactic(auto, unfolding(crate::specs::Reading::read_statement))]
pub(crate) fn statement(alloc: Global, text: &str, tokens: &[Token]) -> Result<Statement, Miss>
    requires { AreIn text.now tokens.now }
    ensures { Gives (λ s. (s, [])) result (read_statement (symbols_of text.now tokens.now)) }
{
    let (statement, rest) = begun(alloc, text, tokens)?;
    if rest.is_empty() {
        Ok(statement)
    } else {
        Err(CallError::Fault(rest.len()))
    }
}
