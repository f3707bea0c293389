//! The statement that a text spells.

ghost use Rattle.std.specs.Prelude.{◌≡◌, ◌-◌, ◌≤◌, length, drop, IfOk};
ghost use Rattle.cube_values.specs.Faults.{IfFault};
ghost use Rattle.cube_language.specs.Grammar.{Spells};
ghost use Rattle.cube_language.specs.Syntax.{IsSyntaxFault};
ghost use Rattle.cube_language.specs.Tokens.{fault_at};
ghost use Rattle.sql_tree.specs.Places.{first_place};

use crate::statement::statement;
use cube_language::{Statement, Syntax, Token, TokenFault};
use cube_values::CallError;
use sql_words::{a_token_has_its_bytes, tokens};
use std::alloc::Global;

/// The place of a fault among tokens.
fn fault_at(fault: &TokenFault) -> u64
    ensures { result ≡ fault_at fault.now }
{
    match fault {
        TokenFault::BadByte { at }
        | TokenFault::UnclosedText { at }
        | TokenFault::NumberTooWide { at } => *at,
    }
}

/// The place of the first of the tokens of which so many are left, or the text's length where none is.
fn place_left(text: &str, tokens: &[Token], left: usize) -> u64
    requires { left ≤ length tokens.now }
    ensures { result ≡ first_place text.now (drop (length tokens.now - left) tokens.now) }
{
    let (_, behind) = tokens.split_at(tokens.len() - left);
    match behind {
        [] => text.len() as u64,
        [first, ..] => first.start as u64,
    }
}

/// The statement that a text spells. Keywords stand in any case. Both the time and the memory taken are
/// linear in the bytes of the text.
pub fn parse(alloc: Global, text: &str) -> Result<Statement, CallError<Syntax>>
    ensures spelled { IfOk result (λ s. Spells text.now s) }
    ensures refused { IfFault result (λ fault. IsSyntaxFault text.now fault.at) }
{
    let found = match tokens(alloc, text) {
        Ok(found) => found,
        Err(CallError::Fault(fault)) => {
            return Err(CallError::Fault(Syntax {
                at: fault_at(&fault),
            }));
        }
        Err(CallError::NoMemory) => return Err(CallError::NoMemory),
    };
    a_token_has_its_bytes();
    let all = found.as_slice();
    match statement(alloc, text, all) {
        Ok(statement) => Ok(statement),
        Err(CallError::Fault(left)) => Err(CallError::Fault(Syntax {
            at: place_left(text, all, left),
        })),
        Err(CallError::NoMemory) => Err(CallError::NoMemory),
    }
}
