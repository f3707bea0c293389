//! The printed form of a statement.

ghost use Rattle.std.specs.Prelude.{◌≡◌, ◌++◌, map, IfOk, OnOk};
ghost use Rattle.std.specs.Char.{to_ascii_uppercase};
ghost use Rattle.cube_language.specs.Keywords.{keyword_text};
ghost use Rattle.cube_language.specs.Printed.{closes, gap, is_aggregate, printed, spaced, symbol_text, touch};

use crate::form::form_of;
use cube_language::{Keyword, Statement, Symbol, keyword_text, put_i128, put_quoted};
use std::alloc::{AllocError, Global};

/// Appends a keyword in capitals.
fn put_capitals(out: &mut Vec<u8>, keyword: Keyword) -> Result<(), AllocError>
    ensures { OnOk result (out.new.items ≡
        out.old.items ++ map to_ascii_uppercase (keyword_text keyword)) }
{
    let letters = keyword_text(keyword).as_bytes();
    'letters: for letter in letters {
        out.push(letter.to_ascii_uppercase())?;
    }
    Ok(())
}

/// Appends the text of a symbol.
fn put_symbol(out: &mut Vec<u8>, symbol: &Symbol) -> Result<(), AllocError>
    ensures { OnOk result (out.new.items ≡ out.old.items ++ symbol_text symbol.now) }
{
    match symbol {
        Symbol::Keyword(keyword) => put_capitals(out, *keyword),
        Symbol::Word(word) => out.extend_from_slice(word.as_bytes()),
        Symbol::Number(n) => put_i128(out, *n),
        Symbol::Text(text) => put_quoted(out, text.as_bytes()),
        Symbol::Open => out.extend_from_slice(b"("),
        Symbol::Close => out.extend_from_slice(b")"),
        Symbol::Comma => out.extend_from_slice(b","),
        Symbol::Equals => out.extend_from_slice(b"="),
        Symbol::Star => out.extend_from_slice(b"*"),
    }
}

/// Whether a keyword is the word of an aggregate.
fn is_aggregate(keyword: Keyword) -> bool
    ensures { result ≡ is_aggregate keyword }
{
    match keyword {
        Keyword::Sum | Keyword::Count | Keyword::Min | Keyword::Max | Keyword::Avg => true,
        _ => false,
    }
}

/// Whether no space stands before the symbol.
fn closes(symbol: &Symbol) -> bool
    ensures { result ≡ closes symbol.now }
{
    match symbol {
        Symbol::Close | Symbol::Comma => true,
        _ => false,
    }
}

/// Whether no space stands between the symbols.
fn touch(symbol: &Symbol, next: &Symbol) -> bool
    ensures { result ≡ touch symbol.now next.now }
{
    match symbol {
        Symbol::Open => true,
        Symbol::Keyword(keyword) => match next {
            Symbol::Open => is_aggregate(*keyword),
            _ => closes(next),
        },
        _ => closes(next),
    }
}

/// Appends the text of a symbol behind another one.
fn put_behind(out: &mut Vec<u8>, before: &Symbol, symbol: &Symbol) -> Result<(), AllocError>
    ensures { OnOk result (out.new.items ≡
        out.old.items ++ (gap before.now symbol.now ++ symbol_text symbol.now)) }
{
    if !touch(before, symbol) {
        out.push(b' ')?;
    }
    put_symbol(out, symbol)
}

/// The texts of symbols, with one space between those that do not touch.
fn spaced(alloc: Global, symbols: &[Symbol]) -> Result<Vec<u8>, AllocError>
    ensures { IfOk result (λ text. text.items ≡ spaced symbols.now) }
{
    let mut out = Vec::new(alloc);
    let [first, others @ ..] = symbols else {
        return Ok(out);
    };
    put_symbol(&mut out, first)?;
    let mut before = first;
    let mut left = others;
    'symbols: while let [symbol, rest @ ..] = left {
        put_behind(&mut out, before, symbol)?;
        before = symbol;
        left = rest;
    }
    Ok(out)
}

/// The printed form of a statement. The time and the memory taken are linear in its bytes.
pub fn print(alloc: Global, statement: &Statement) -> Result<Vec<u8>, AllocError>
    ensures { IfOk result (λ text. text.items ≡ printed statement.now) }
{
    let symbols = form_of(alloc, statement)?;
    spaced(alloc, symbols.as_slice())
}
