//! The symbols of a statement as it is printed.

ghost use Rattle.std.specs.Prelude.{◌≡◌, ◌++◌, IfOk, OnOk};
ghost use Rattle.cube_language.specs.declared.statement.Statement.TheVariants as statement;
ghost use Rattle.cube_language.specs.Columns.{columns_of};
ghost use Rattle.cube_language.specs.Grammar.{form_of, group_form, having_form, limit_form, order_form, plain_form, query_form, where_form};

use crate::head::Sign;
use crate::put::{put_count, put_keyword, put_list, put_name, put_separated, put_text};
use cube_language::{
    Column, Columns, Cond, Decl, DimDecl, Item, Key, Keyword, Statement, Symbol, Test,
};
use cube_values::{Text, Values};
use std::alloc::{AllocError, Global};

/// Appends conditions, if there are any.
fn put_where(out: &mut Vec<Symbol>, conds: &[Cond]) -> Result<(), AllocError>
    ensures { OnOk result (out.new.items ≡ out.old.items ++ where_form conds.now) }
{
    if let [_, ..] = conds {
        put_keyword(out, Keyword::Where)?;
        put_separated(out, conds, Sign::Keyword(Keyword::And))?;
    }
    Ok(())
}

/// Appends the names that a query groups by, if there are any.
fn put_group(out: &mut Vec<Symbol>, group: &[Text]) -> Result<(), AllocError>
    ensures { OnOk result (out.new.items ≡ out.old.items ++ group_form group.now) }
{
    if let [_, ..] = group {
        put_keyword(out, Keyword::Group)?;
        put_keyword(out, Keyword::By)?;
        put_separated(out, group, Sign::Comma)?;
    }
    Ok(())
}

/// Appends tests of HAVING, if there are any.
fn put_having(out: &mut Vec<Symbol>, having: &[Test]) -> Result<(), AllocError>
    ensures { OnOk result (out.new.items ≡ out.old.items ++ having_form having.now) }
{
    if let [_, ..] = having {
        put_keyword(out, Keyword::Having)?;
        put_separated(out, having, Sign::Keyword(Keyword::And))?;
    }
    Ok(())
}

/// Appends keys of ORDER BY, if there are any.
fn put_order(out: &mut Vec<Symbol>, order: &[Key]) -> Result<(), AllocError>
    ensures { OnOk result (out.new.items ≡ out.old.items ++ order_form plain_form order.now) }
{
    if let [_, ..] = order {
        put_keyword(out, Keyword::Order)?;
        put_keyword(out, Keyword::By)?;
        put_separated(out, order, Sign::Comma)?;
    }
    Ok(())
}

/// Appends a limit, if there is one.
fn put_limit(out: &mut Vec<Symbol>, limit: Option<u64>) -> Result<(), AllocError>
    ensures { OnOk result (out.new.items ≡ out.old.items ++ limit_form limit) }
{
    if let Some(most) = limit {
        put_keyword(out, Keyword::Limit)?;
        put_count(out, most)?;
    }
    Ok(())
}

/// Appends what a SELECT or a WATCH asks for.
fn put_query(
    out: &mut Vec<Symbol>,
    items: &[Item],
    cube: &Text,
    conds: &[Cond],
    group: &[Text],
) -> Result<(), AllocError>
    ensures { OnOk result (out.new.items ≡
        out.old.items ++ query_form items.now cube.now conds.now group.now) }
{
    put_keyword(out, Keyword::Select)?;
    put_separated(out, items, Sign::Comma)?;
    put_keyword(out, Keyword::From)?;
    put_name(out, cube)?;
    put_where(out, conds)?;
    put_group(out, group)?;
    Ok(())
}

/// Appends an INSERT.
fn put_insert(out: &mut Vec<Symbol>, cube: &Text, rows: &[Values]) -> Result<(), AllocError>
    ensures { OnOk result (out.new.items ≡
        out.old.items ++ form_of (statement.Insert cube.now rows.now)) }
{
    put_keyword(out, Keyword::Insert)?;
    put_keyword(out, Keyword::Into)?;
    put_name(out, cube)?;
    put_keyword(out, Keyword::Values)?;
    put_separated(out, rows, Sign::Comma)?;
    Ok(())
}

/// Appends a LOAD.
fn put_load(out: &mut Vec<Symbol>, cube: &Text, path: &Text, reject: u64) -> Result<(), AllocError>
    ensures { OnOk result (out.new.items ≡
        out.old.items ++ form_of (statement.Load cube.now path.now reject)) }
{
    put_keyword(out, Keyword::Load)?;
    put_name(out, cube)?;
    put_keyword(out, Keyword::From)?;
    put_text(out, path)?;
    put_keyword(out, Keyword::Reject)?;
    put_count(out, reject)?;
    Ok(())
}

/// Appends a DELETE.
fn put_delete(out: &mut Vec<Symbol>, cube: &Text, conds: &[Cond]) -> Result<(), AllocError>
    ensures { OnOk result (out.new.items ≡
        out.old.items ++ form_of (statement.Delete cube.now conds.now)) }
{
    put_keyword(out, Keyword::Delete)?;
    put_keyword(out, Keyword::From)?;
    put_name(out, cube)?;
    put_where(out, conds)?;
    Ok(())
}

/// The same dimension.
fn dim_of(dim: &DimDecl) -> Result<DimDecl, AllocError>
    ensures { IfOk result (λ copy. copy ≡ dim.now) }
{
    Ok(DimDecl {
        name: dim.name.clone()?,
        text: dim.text,
        cardinality: dim.cardinality,
        range: dim.range,
    })
}

/// The columns of a cube, dimensions first.
fn columns_of(alloc: Global, decl: &Decl) -> Result<Columns, AllocError>
    ensures { IfOk result (λ columns. columns ≡ columns_of decl.now) }
{
    let mut columns = Columns::new(alloc);
    let dims = decl.dims.as_slice();
    'dims: for dim in dims {
        columns.push(Column::Dim(dim_of(dim)?))?;
    }
    let metrics = decl.metrics.as_slice();
    'metrics: for metric in metrics {
        columns.push(Column::Metric(metric.clone()?))?;
    }
    Ok(columns)
}

/// Appends a CREATE CUBE.
fn put_create(alloc: Global, out: &mut Vec<Symbol>, decl: &Decl) -> Result<(), AllocError>
    ensures { OnOk result (out.new.items ≡
        out.old.items ++ form_of (statement.CreateCube decl.now)) }
{
    let columns = columns_of(alloc, decl)?;
    put_keyword(out, Keyword::Create)?;
    put_keyword(out, Keyword::Cube)?;
    put_name(out, &decl.name)?;
    put_list(out, columns.as_slice())?;
    Ok(())
}

/// The symbols of a statement as it is printed: without ASC, and with the dimensions of a cube first.
pub(crate) fn form_of(alloc: Global, statement: &Statement) -> Result<Vec<Symbol>, AllocError>
    ensures { IfOk result (λ symbols. symbols.items ≡ form_of statement.now) }
{
    let mut out = Vec::new(alloc);
    match statement {
        Statement::Select {
            items,
            cube,
            conds,
            group,
            having,
            order,
            limit,
        } => {
            put_query(
                &mut out,
                items.as_slice(),
                cube,
                conds.as_slice(),
                group.as_slice(),
            )?;
            put_having(&mut out, having.as_slice())?;
            put_order(&mut out, order.as_slice())?;
            put_limit(&mut out, *limit)?;
        }
        Statement::Insert { cube, rows } => put_insert(&mut out, cube, rows.as_slice())?,
        Statement::Load { cube, path, reject } => put_load(&mut out, cube, path, *reject)?,
        Statement::Delete { cube, conds } => put_delete(&mut out, cube, conds.as_slice())?,
        Statement::Begin => put_keyword(&mut out, Keyword::Begin)?,
        Statement::Commit => put_keyword(&mut out, Keyword::Commit)?,
        Statement::Rollback => put_keyword(&mut out, Keyword::Rollback)?,
        Statement::Flush => put_keyword(&mut out, Keyword::Flush)?,
        Statement::Purge => put_keyword(&mut out, Keyword::Purge)?,
        Statement::ShowEpochs => {
            put_keyword(&mut out, Keyword::Show)?;
            put_keyword(&mut out, Keyword::Epochs)?;
        }
        Statement::CreateCube { decl } => put_create(alloc, &mut out, decl)?,
        Statement::Watch {
            items,
            cube,
            conds,
            group,
        } => {
            put_keyword(&mut out, Keyword::Watch)?;
            put_query(
                &mut out,
                items.as_slice(),
                cube,
                conds.as_slice(),
                group.as_slice(),
            )?;
        }
        Statement::ShowWatch => {
            put_keyword(&mut out, Keyword::Show)?;
            put_keyword(&mut out, Keyword::Watch)?;
        }
    }
    Ok(out)
}
