//! The tests of a statement on its cube, in their order.

ghost use Rattle.std.specs.Prelude.{◌≡◌, IfOk, OnOk};
ghost use Rattle.cube_values.specs.Faults.{IfFault};
ghost use Rattle.cube_language.specs.Misfits.{HasMisfit, FitsCube};
ghost use Rattle.statement_check.specs.Cuts.{AreSolid};
ghost use Rattle.statement_check.specs.Stages.{PassesFirst};

use crate::columns::{ColumnTest, failing_column};
use crate::items::{bad_having, not_an_item, not_grouped, not_watchable};
use crate::parts::{deleted_conds, inserted_rows};
use crate::ranges::first_cut;
use crate::rows::first_bad_row;
use cube_language::{Decl, Item, Misfit, Statement};
use cube_schema::Schema;
use cube_values::CallError;
use std::alloc::AllocError;

fn copy_item(item: &Item) -> Result<Item, AllocError>
    ensures { IfOk result (λ i. i ≡ item.now) }
{
    item.clone()
}

fn check_names(decl: &Decl, statement: &Statement) -> Result<(), CallError<Misfit>>
    ensures passes { OnOk result (PassesFirst 1 decl.now statement.now) }
    ensures fault { IfFault result (HasMisfit decl.now statement.now) }
{
    if let Some(name) = failing_column(ColumnTest::Unknown, decl, statement) {
        let copied = name.copy()?;
        return Err(CallError::Fault(Misfit::UnknownColumn { name: copied }));
    }
    Ok(())
}

fn check_kinds(decl: &Decl, statement: &Statement) -> Result<(), CallError<Misfit>>
    requires { PassesFirst 1 decl.now statement.now }
    ensures passes { OnOk result (PassesFirst 2 decl.now statement.now) }
    ensures fault { IfFault result (HasMisfit decl.now statement.now) }
{
    if let Some(name) = failing_column(ColumnTest::WrongUse, decl, statement) {
        let copied = name.copy()?;
        return Err(CallError::Fault(Misfit::WrongKind { name: copied }));
    }
    Ok(())
}

fn check_group(decl: &Decl, statement: &Statement) -> Result<(), CallError<Misfit>>
    requires { PassesFirst 2 decl.now statement.now }
    ensures passes { OnOk result (PassesFirst 3 decl.now statement.now) }
    ensures fault { IfFault result (HasMisfit decl.now statement.now) }
{
    if let Some(name) = not_grouped(statement) {
        let copied = name.copy()?;
        return Err(CallError::Fault(Misfit::NotGrouped { name: copied }));
    }
    Ok(())
}

fn check_asked(decl: &Decl, statement: &Statement) -> Result<(), CallError<Misfit>>
    requires { PassesFirst 3 decl.now statement.now }
    ensures passes { OnOk result (PassesFirst 4 decl.now statement.now) }
    ensures fault { IfFault result (HasMisfit decl.now statement.now) }
{
    if let Some(item) = not_an_item(statement) {
        let copied = copy_item(item)?;
        return Err(CallError::Fault(Misfit::NotAnItem { item: copied }));
    }
    Ok(())
}

fn check_having(decl: &Decl, statement: &Statement) -> Result<(), CallError<Misfit>>
    requires { PassesFirst 4 decl.now statement.now }
    ensures passes { OnOk result (PassesFirst 5 decl.now statement.now) }
    ensures fault { IfFault result (HasMisfit decl.now statement.now) }
{
    if let Some(item) = bad_having(statement) {
        let copied = copy_item(item)?;
        return Err(CallError::Fault(Misfit::BadHaving { item: copied }));
    }
    Ok(())
}

fn check_watch(decl: &Decl, statement: &Statement) -> Result<(), CallError<Misfit>>
    requires { PassesFirst 5 decl.now statement.now }
    ensures passes { OnOk result (PassesFirst 6 decl.now statement.now) }
    ensures fault { IfFault result (HasMisfit decl.now statement.now) }
{
    if let Some(item) = not_watchable(statement) {
        let copied = copy_item(item)?;
        return Err(CallError::Fault(Misfit::NotWatchable { item: copied }));
    }
    Ok(())
}

fn check_ranges(decl: &Decl, statement: &Statement) -> Result<(), CallError<Misfit>>
    requires solid { AreSolid decl.now.dims }
    requires before { PassesFirst 6 decl.now statement.now }
    ensures passes { OnOk result (PassesFirst 7 decl.now statement.now) }
    ensures fault { IfFault result (HasMisfit decl.now statement.now) }
{
    if let Some(name) = first_cut(decl, deleted_conds(statement)) {
        let copied = name.copy()?;
        return Err(CallError::Fault(Misfit::CutsBrick { name: copied }));
    }
    Ok(())
}

fn check_rows(decl: &Decl, statement: &Statement) -> Result<(), CallError<Misfit>>
    requires { PassesFirst 7 decl.now statement.now }
    ensures fits { OnOk result (FitsCube decl.now statement.now) }
    ensures fault { IfFault result (HasMisfit decl.now statement.now) }
{
    if let Some(found) = first_bad_row(decl, inserted_rows(statement))? {
        return Err(CallError::Fault(Misfit::BadRow {
            row: found.row,
            why: found.why,
        }));
    }
    Ok(())
}

/// Whether a statement can be done on its cube: Ok, or the first test that it fails, in the order of
/// `Misfit`. The name of the cube is not compared. A statement that uses no cube passes every test.
pub fn check_statement(cube: &Schema, statement: &Statement) -> Result<(), CallError<Misfit>>
    ensures fits { OnOk result (FitsCube cube.now statement.now) }
    ensures misfit { IfFault result (HasMisfit cube.now statement.now) }
{
    let decl = cube.decl();
    check_names(decl, statement)?;
    check_kinds(decl, statement)?;
    check_group(decl, statement)?;
    check_asked(decl, statement)?;
    check_having(decl, statement)?;
    check_watch(decl, statement)?;
    check_ranges(decl, statement)?;
    check_rows(decl, statement)
}
