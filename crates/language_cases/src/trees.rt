//! Texts with the printed form of the statement that each spells, or with the place where each goes wrong,
//! worked out by hand.

use crate::tables::first_other;
use cube_language::Statement;
use cube_values::CallError;
use sql_tree::{
    a_text_spells_or_has_one_fault, parse, print, what_is_printed_spells_its_statement,
};
use std::alloc::{AllocError, Global};

/// A text, and what is printed of its statement or says where it goes wrong.
const TEXTS: &str = r"
select  sum ( likes ) from visits where region in ('CA')|SELECT SUM(likes) FROM visits WHERE region IN ('CA')|
select a,min(b),max(c),avg(d),count(*),Sum(e) from t where a='it''s' and b in(1,2) and c between -1 and 'x' group by a,b|SELECT a, MIN(b), MAX(c), AVG(d), COUNT(*), SUM(e) FROM t WHERE a = 'it''s' AND b IN (1, 2) AND c BETWEEN -1 AND 'x' GROUP BY a, b|
SELECT a FROM t GROUP BY a|SELECT a FROM t GROUP BY a|
sElEcT\tcount\n(\r* )fRoM selected|SELECT COUNT(*) FROM selected|
SELECT -- the sum\n SUM(m)-- of\nFROM t --|SELECT SUM(m) FROM t|
SELECT aaaaaaaaaaaaaaaaaaaaaaaaaaaaaa_BBBBBBBBBBBBBBBBBBBBBBBBBBBBBB123 FROM t|SELECT aaaaaaaaaaaaaaaaaaaaaaaaaaaaaa_BBBBBBBBBBBBBBBBBBBBBBBBBBBBBB123 FROM t|
insert into t values(1,'x'),( -2 , '' )|INSERT INTO t VALUES (1, 'x'), (-2, '')|
INSERT INTO t VALUES (-9223372036854775808, 9223372036854775807, -00, 007)|INSERT INTO t VALUES (-9223372036854775808, 9223372036854775807, 0, 7)|
INSERT INTO t VALUES ('''', '''''', 'a -- b', 'é日')|INSERT INTO t VALUES ('''', '''''', 'a -- b', 'é日')|
load t from 'a b.csv' reject 0010|LOAD t FROM 'a b.csv' REJECT 10|
LOAD t FROM '' REJECT 9223372036854775807|LOAD t FROM '' REJECT 9223372036854775807|
LOAD t FROM 'p' REJECT -0|LOAD t FROM 'p' REJECT 0|
delete from t|DELETE FROM t|
DELETE FROM t where a = 1 and b='y'|DELETE FROM t WHERE a = 1 AND b = 'y'|
begin|BEGIN|
Commit|COMMIT|
 ROLLBACK |ROLLBACK|
flusH|FLUSH|
pUrGe|PURGE|
show\nepochs|SHOW EPOCHS|
SELECT FROM visits|Syntax at 7|
SELECT FROM #|Syntax at 12|
SELECT  |Syntax at 8|
|Syntax at 0|
 -- a\n|Syntax at 6|
FROM SELECT #|Syntax at 12|
LOAD t FROM 'p' REJECT -1|Syntax at 23|
INSERT INTO t VALUES ()|Syntax at 22|
INSERT INTO t VALUES (9223372036854775808)|Syntax at 22|
INSERT INTO t VALUES ('a|Syntax at 22|
INSERT INTO t VALUES (1), 2|Syntax at 26|
INSERT INTO t VALUES (1, (2)|Syntax at 25|
SELECT a FROM aaaaaaaaaaaaaaaaaaaaaaaaaaaaaa_BBBBBBBBBBBBBBBBBBBBBBBBBBBBBB1234|Syntax at 14|
SELECT a FROM watch|Syntax at 14|
SELECT select FROM t|Syntax at 7|
SELECT count FROM t|Syntax at 13|
SELECT SUM(*) FROM t|Syntax at 11|
SELECT COUNT(m) FROM t|Syntax at 13|
SELECT a FROM t;|Syntax at 15|
SELECT a FROM t WHERE a|Syntax at 23|
SELECT a FROM t WHERE a BETWEEN 1 OR 2|Syntax at 34|
SELECT a FROM t GROUP BY a WHERE a = 1|Syntax at 27|
select a,count(*),avg(m) from t group by a having count(*)=3 and sum(m) in(1,-2) and avg(m) between -5 and 5 order by a asc,sum(m) desc,count(*) limit 010|SELECT a, COUNT(*), AVG(m) FROM t GROUP BY a HAVING COUNT(*) = 3 AND SUM(m) IN (1, -2) AND AVG(m) BETWEEN -5 AND 5 ORDER BY a, SUM(m) DESC, COUNT(*) LIMIT 10|
SELECT a FROM t ORDER BY a ASC|SELECT a FROM t ORDER BY a|
SELECT a FROM t LIMIT -0|SELECT a FROM t LIMIT 0|
SELECT COUNT(*) FROM t HAVING MIN(m) = 1|SELECT COUNT(*) FROM t HAVING MIN(m) = 1|
create cube t(metric m,dim x int 05 2,metric k,dim y text 4294967295 -0)|CREATE CUBE t (DIM x INT 5 2, DIM y TEXT 4294967295 0, METRIC m, METRIC k)|
CREATE CUBE t (METRIC m)|CREATE CUBE t (METRIC m)|
watch select sum(m) from t where x=1 group by y|WATCH SELECT SUM(m) FROM t WHERE x = 1 GROUP BY y|
sHoW wAtCh|SHOW WATCH|
SELECT a FROM t LIMIT -1|Syntax at 22|
SELECT a FROM t LIMIT 9223372036854775808|Syntax at 22|
SELECT a FROM t HAVING a = 1|Syntax at 23|
SELECT a FROM t HAVING SUM(m) = 'x'|Syntax at 32|
SELECT a FROM t HAVING SUM(m) IN ()|Syntax at 34|
SELECT a FROM t ORDER a|Syntax at 22|
SELECT a FROM t ORDER BY a ASC DESC|Syntax at 31|
SELECT a FROM t ORDER BY asc|Syntax at 25|
SELECT a FROM t LIMIT 1 ORDER BY a|Syntax at 24|
SELECT a FROM t ORDER BY a HAVING SUM(m) = 1|Syntax at 27|
WATCH SELECT a FROM t HAVING SUM(m) = 1|Syntax at 22|
WATCH SELECT a FROM t ORDER BY a|Syntax at 22|
WATCH SELECT a FROM t LIMIT 1|Syntax at 22|
WATCH|Syntax at 5|
SHOW|Syntax at 4|
SHOW CUBE|Syntax at 5|
CREATE CUBE t ()|Syntax at 15|
CREATE CUBE t (DIM x INT 4294967296 2, METRIC m)|Syntax at 25|
CREATE CUBE t (DIM x INT 5 -2, METRIC m)|Syntax at 27|
CREATE CUBE t (DIM x 5 2)|Syntax at 21|
CREATE CUBE t (METRIC m,)|Syntax at 24|
CREATE CUBE text (METRIC m)|Syntax at 12|
";

/// Keywords in small and in mixed letters, and what is printed of the statement.
const MIXED_TEXTS: &str = r"
SeLeCt a,Min(b),mAx(c),aVG(d),cOuNt(*) FrOm t wHeRe a=1 aNd b iN(1) AnD c BeTwEeN 1 anD 2 gRoUp By a hAvInG sUm(m)=1 oRdEr bY a aSc,Sum(m) dEsC lImIt 3|SELECT a, MIN(b), MAX(c), AVG(d), COUNT(*) FROM t WHERE a = 1 AND b IN (1) AND c BETWEEN 1 AND 2 GROUP BY a HAVING SUM(m) = 1 ORDER BY a, SUM(m) DESC LIMIT 3|
iNsErT InTo t vAlUeS(1)|INSERT INTO t VALUES (1)|
lOaD t fRoM 'p' ReJeCt 1|LOAD t FROM 'p' REJECT 1|
dElEtE fRoM t|DELETE FROM t|
bEgIn|BEGIN|
cOmMiT|COMMIT|
commit|COMMIT|
rOlLbAcK|ROLLBACK|
rollback|ROLLBACK|
flush|FLUSH|
purge|PURGE|
ShOw EpOcHs|SHOW EPOCHS|
cReAtE CuBe t(DiM x iNt 1 1,dIm y TeXt 1 1,mEtRiC m)|CREATE CUBE t (DIM x INT 1 1, DIM y TEXT 1 1, METRIC m)|
WaTcH sElEcT a FrOm t|WATCH SELECT a FROM t|
show watch|SHOW WATCH|
";

/// What is printed of a text's statement, which spells that statement again, or says where the text goes wrong.
fn shown(alloc: Global, text: &str) -> Result<String, AllocError> {
    match parse(alloc, text) {
        Ok(statement) => {
            let printed = String::from_utf8_lossy(alloc, print(alloc, &statement)?.as_slice())?;
            if is_spelled_by(alloc, printed.as_str(), &statement)? {
                return Ok(printed);
            }
            format!(in alloc; "{printed}, which spells another statement")
        }
        Err(CallError::Fault(fault)) => format!(in alloc; "{fault}"),
        Err(CallError::NoMemory) => Err(AllocError),
    }
}

/// Whether a text spells the statement.
fn is_spelled_by(alloc: Global, text: &str, statement: &Statement) -> Result<bool, AllocError> {
    match parse(alloc, text) {
        Ok(read) => Ok(read == *statement),
        Err(CallError::Fault(_)) => Ok(false),
        Err(CallError::NoMemory) => Err(AllocError),
    }
}

#[test]
fn texts_are_read_and_printed(rt: HostRuntime) {
    a_text_spells_or_has_one_fault();
    what_is_printed_spells_its_statement();
    assert_eq!(rt; first_other(rt.alloc(), TEXTS, shown), Ok(None));
}

#[test]
fn keywords_have_any_letters(rt: HostRuntime) {
    assert_eq!(rt; first_other(rt.alloc(), MIXED_TEXTS, shown), Ok(None));
}

/// A text of each form, with a space between each two tokens, and the changes of its tokens, by their numbers from 0, behind
/// which the text goes wrong at another place than the change, or nowhere.
const FORMS: &str = r"
SELECT a , SUM ( m ) , COUNT ( * ) , MIN ( m ) , MAX ( m ) , AVG ( m ) FROM t WHERE a = 'x' AND b IN ( 1 , 2 ) AND c BETWEEN 1 AND 2 GROUP BY a , b||
SELECT a FROM t GROUP BY a||
INSERT INTO t VALUES ( 1 , 'x' )||
LOAD t FROM 'p' REJECT 7||
DELETE FROM t WHERE a = 1||
BEGIN||
COMMIT||
ROLLBACK||
FLUSH||
PURGE||
SHOW EPOCHS||
SELECT a FROM t GROUP BY a HAVING SUM ( m ) = 1 AND COUNT ( * ) IN ( 1 , 2 ) AND AVG ( m ) BETWEEN 1 AND 2 ORDER BY a DESC , MAX ( m ) ASC LIMIT 7|without 37 nowhere; without 43 nowhere; |
SELECT a FROM t WHERE a = 1 HAVING MIN ( m ) = 1 LIMIT 7||
SELECT a FROM t ORDER BY COUNT ( * ) DESC LIMIT 7|without 10 nowhere; |
SELECT SUM ( m ) FROM t LIMIT 7||
CREATE CUBE t ( METRIC m , DIM x INT 5 2 , DIM y TEXT 3 1 )|without 10 at 39; twice 10 at 41; without 16 at 56; twice 16 at 58; |
WATCH SELECT a , SUM ( m ) FROM t WHERE a = 1 GROUP BY a|without 0 nowhere; |
SHOW WATCH|without 0 at 6; |
";

/// How a token is changed.
#[derive(Clone, Copy)]
enum Change {
    LeftOut,
    Doubled,
    Replaced,
}

fn change_word(change: Change) -> &'static str {
    match change {
        Change::LeftOut => "without",
        Change::Doubled => "twice",
        Change::Replaced => "another for",
    }
}

/// The token that stands in the place of a token.
fn replacing(token: &str) -> &'static str {
    if token == "*" { "=" } else { "*" }
}

/// Puts a token changed, and gives the place where the text then goes wrong: where the token was that is left out or replaced,
/// and where it stands the second time.
fn put_changed(text: &mut String, token: &str, change: Change) -> Result<usize, AllocError> {
    let mut place = text.len();
    match change {
        Change::LeftOut => {}
        Change::Doubled => {
            put_token(text, token)?;
            place = text.len();
            put_token(text, token)?;
        }
        Change::Replaced => put_token(text, replacing(token))?,
    }
    Ok(place)
}

fn put_token(text: &mut String, token: &str) -> Result<(), AllocError> {
    text.push_str(token)?;
    text.push_str(" ")?;
    Ok(())
}

/// Puts a form with one token changed, and gives the place where the text goes wrong.
fn put_form(text: &mut String, form: &str, at: usize, change: Change) -> Result<usize, AllocError> {
    let mut place = 0;
    for (number, token) in form.split(' ').enumerate() {
        if number == at {
            place = put_changed(text, token, change)?;
        } else {
            put_token(text, token)?;
        }
    }
    Ok(place)
}

/// The place where a text goes wrong, if it does.
fn wrong_at(alloc: Global, text: &str) -> Result<Option<u64>, AllocError> {
    match parse(alloc, text) {
        Ok(_) => Ok(None),
        Err(CallError::Fault(fault)) => Ok(Some(fault.at)),
        Err(CallError::NoMemory) => Err(AllocError),
    }
}

/// Where a form with one token changed goes wrong. Empty: at the change.
fn elsewhere(alloc: Global, form: &str, at: usize, change: Change) -> Result<String, AllocError> {
    let mut text = String::new(alloc);
    let place = put_form(&mut text, form, at, change)?;
    let word = change_word(change);
    match wrong_at(alloc, text.as_str())? {
        Some(wrong) if wrong == place as u64 => Ok(String::new(alloc)),
        Some(wrong) => format!(in alloc; "{word} {at} at {wrong}; "),
        None => format!(in alloc; "{word} {at} nowhere; "),
    }
}

/// The changes of a form behind which it goes wrong elsewhere.
fn elsewhere_shown(alloc: Global, form: &str) -> Result<String, AllocError> {
    let mut shown = String::new(alloc);
    for at in 0..form.split(' ').count() {
        for change in [Change::LeftOut, Change::Doubled, Change::Replaced] {
            let told = elsewhere(alloc, form, at, change)?;
            shown.push_str(told.as_str())?;
        }
    }
    Ok(shown)
}

#[test]
fn changed_texts_go_wrong_at_the_change(rt: HostRuntime) {
    assert_eq!(rt; first_other(rt.alloc(), FORMS, elsewhere_shown), Ok(None));
}
