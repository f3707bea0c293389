//! What refuses statements, worked out by hand: each refusal, and two of them at once in each order.

use crate::cubes::{asks_rows, deletes_rows, names_of_three, puts_rows, statement_of, three_cubes};
use cube_language::Statement;
use cube_schema::Schema;
use cube_values::{CallError, NameLists};
use query_plan::{BindFault, bind_delete, bind_rows, bind_select};
use std::alloc::Global;
use std::process::Abort;
use std::test::*;

// Statements, each with the number and the text of what refuses it; 0 and no text where it is bound.
const CASES: &str = "\
SELECT COUNT(*) FROM nowhere | 2 | UnknownCube nowhere
SELECT age, SUM(region) FROM nowhere | 2 | UnknownCube nowhere
WATCH SELECT MIN(likes) FROM Visits | 2 | UnknownCube Visits
DELETE FROM nowhere WHERE x = 0 | 2 | UnknownCube nowhere
INSERT INTO nowhere VALUES (1) | 2 | UnknownCube nowhere
LOAD nowhere FROM 'f' REJECT 0 | 2 | UnknownCube nowhere
LOAD t FROM 'f' REJECT 0 | 0 |
SELECT SUM(b), a FROM visits WHERE c = 1 | 3 | UnknownColumn b
SELECT a, SUM(b) FROM visits | 3 | UnknownColumn a
DELETE FROM t WHERE x = 0 AND y = 1 | 3 | UnknownColumn y
SELECT SUM(region), SUM(b) FROM visits | 3 | UnknownColumn b
SELECT SUM(b), SUM(region) FROM visits | 3 | UnknownColumn b
SELECT likes FROM visits | 4 | WrongKind likes
SELECT COUNT(*) FROM visits WHERE region = 1 | 4 | WrongKind region
SELECT COUNT(*) FROM t WHERE x = 'a' | 4 | WrongKind x
SELECT COUNT(*) FROM visits WHERE region BETWEEN 'a' AND 'b' | 4 | WrongKind region
SELECT region, SUM(gender) FROM visits | 4 | WrongKind gender
SELECT SUM(gender), region FROM visits | 4 | WrongKind gender
SELECT region, gender FROM visits | 5 | NotGrouped region
SELECT gender, region FROM visits GROUP BY gender | 5 | NotGrouped region
SELECT region FROM visits ORDER BY MIN(likes) | 5 | NotGrouped region
SELECT COUNT(*) FROM visits ORDER BY MIN(likes) | 26 | NotAnItem MIN(likes)
SELECT COUNT(*) FROM visits HAVING SUM(likes) = 1 ORDER BY region | 26 | NotAnItem SUM(likes)
SELECT COUNT(*) FROM visits ORDER BY region, SUM(likes) | 26 | NotAnItem region
SELECT AVG(likes) FROM visits HAVING AVG(likes) = 1 | 27 | BadHaving AVG(likes)
SELECT AVG(likes) FROM visits HAVING AVG(likes) = 1 ORDER BY COUNT(*) | 26 | NotAnItem COUNT(*)
SELECT AVG(likes) FROM visits HAVING COUNT(*) = 1 AND AVG(likes) = 1 | 26 | NotAnItem COUNT(*)
WATCH SELECT COUNT(*), MAX(likes) FROM visits | 25 | NotWatchable MAX(likes)
WATCH SELECT region, MAX(likes) FROM visits | 5 | NotGrouped region
DELETE FROM t WHERE x = 0 | 6 | CutsBrick x
DELETE FROM t WHERE x BETWEEN 0 AND 1 | 0 |
DELETE FROM t WHERE x = 4 | 0 |
DELETE FROM visits WHERE region = 'CA' | 6 | CutsBrick region
DELETE FROM visits WHERE gender = 'CA' | 0 |
DELETE FROM c WHERE x = 0 AND r = 1 | 4 | WrongKind r
INSERT INTO t VALUES (4, 1) | 0 |
INSERT INTO t VALUES (5, 1) | 7 | BadRow row 1 column x OutOfRange
INSERT INTO t VALUES (-1, 1) | 7 | BadRow row 1 column x OutOfRange
INSERT INTO t VALUES (1) | 7 | BadRow row 1 values 1 WrongCount
INSERT INTO t VALUES (4, 1), (5), ('a', 'b') | 7 | BadRow row 2 values 1 WrongCount
INSERT INTO visits VALUES ('CA', 1, 'a', 2) | 7 | BadRow row 1 column gender NotText";

// A row of the table.
#[derive(Clone, Copy)]
struct Case<'a> {
    text: &'a str,
    code: u32,
    wanted: &'a str,
}

fn case_of(row: &str) -> Option<Case> {
    let (text, row) = row.split_once('|')?;
    let (code, wanted) = row.split_once('|')?;
    Some(Case {
        text: text.trim(),
        code: code.trim().parse::<u32>().ok()?,
        wanted: wanted.trim(),
    })
}

// What refuses a statement.
fn fault_in(
    rt: &impl Abort,
    alloc: Global,
    cubes: &[Schema],
    names: &NameLists,
    statement: &Statement,
) -> Option<CallError<BindFault>> {
    if asks_rows(statement) {
        return bind_select(alloc, statement, cubes, names).err();
    }
    if deletes_rows(statement) {
        return bind_delete(alloc, statement, cubes).err();
    }
    assert!(rt; puts_rows(statement));
    bind_rows(alloc, statement, cubes).err()
}

// What refuses the statement of a text.
fn fault_of(
    rt: &impl Abort,
    alloc: Global,
    cubes: &[Schema],
    names: &NameLists,
    text: &str,
) -> Option<CallError<BindFault>> {
    let statement = statement_of(rt, alloc, text);
    fault_in(rt, alloc, cubes, names, &statement)
}

fn is_told(rt: &impl Abort, alloc: Global, fault: BindFault, code: u32, wanted: &str) -> bool {
    let text = format!(in alloc; "{fault}").expect(rt, "memory");
    text.as_str() == wanted && fault.into_refusal().code() == code
}

fn is_case(
    rt: &impl Abort,
    alloc: Global,
    cubes: &[Schema],
    names: &NameLists,
    case: Case,
) -> bool {
    match fault_of(rt, alloc, cubes, names, case.text) {
        Some(CallError::Fault(fault)) => is_told(rt, alloc, fault, case.code, case.wanted),
        Some(CallError::NoMemory) => false,
        None => case.code == 0,
    }
}

fn check_all(rt: &impl Abort, alloc: Global, cubes: &[Schema], names: &NameLists) {
    for row in CASES.lines() {
        let case = case_of(row).expect(rt, "a case");
        assert!(rt; is_case(rt, alloc, cubes, names, case), "{row}");
    }
}

#[test]
fn refusals(rt: HostRuntime) {
    let alloc = rt.alloc();
    let cubes = three_cubes(&rt, alloc);
    let names = names_of_three(&rt, alloc);
    check_all(&rt, alloc, cubes.as_slice(), &names);
}
