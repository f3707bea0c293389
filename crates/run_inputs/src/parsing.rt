//! What the texts of a script say.

ghost use Rattle.std.specs.Prelude.{◌≡◌, All, IfOk, length};
ghost use Rattle.cube_run.specs.RunRecords.{IsSaidBy};
ghost use Rattle.script_sentences.specs.Sentences.{SaysInPlace, SaysInTurn, sentence_of};
ghost use Rattle.sql_words.specs.Texts.{AreTextsAt, IsTextAt};

use cube_language::Piece;
use cube_values::CallError;
use rayon::prelude::*;
use run_files::Script;
use script_sentences::Said;
use sql_tree::parse;
use sql_words::piece_text;
use std::alloc::{AllocError, Global};
use std::thread::Threads;

// What a text says.
fn text_said(alloc: Global, text: &str) -> Result<Said, AllocError>
    ensures { IfOk result (λ one. IsSaidBy text.now (sentence_of one)) }
{
    match parse(alloc, text) {
        Ok(statement) => Ok(Said::Statement { statement }),
        Err(CallError::Fault(fault)) => Ok(Said::Nothing { fault }),
        Err(CallError::NoMemory) => Err(AllocError),
    }
}

// What the texts of these pieces say. Many are parsed by as many threads as there are processors.
fn pieces_said<R: Threads + Sync>(
    rt: &R,
    alloc: Global,
    script: &[u8],
    pieces: &[Piece],
) -> Result<Vec<Said>, AllocError>
    requires texts { All (IsTextAt script.now) pieces.now }
    ensures { IfOk result (λ said. SaysInTurn script.now pieces.now said.items) }
{
    let said = pieces
        .par_iter()
        .map(
            |piece: &Piece| -> Result<Said, AllocError>
                requires { IsTextAt script.now piece.now }
                ensures { IfOk result (λ one. SaysInPlace script.entry.now piece.now one) }
            { text_said(alloc, piece_text(script, piece)) },
        )
        .collect::<Result<Vec<Said>, AllocError>>(rt, alloc)?;
    Ok(said?)
}

/// What the texts of a script say, one after the other. The only error is out of memory. The time taken is linear in
/// the bytes of the script, and so is the memory.
pub(crate) fn script_said<R: Threads + Sync>(
    rt: &R,
    alloc: Global,
    script: &Script,
) -> Result<Vec<Said>, AllocError>
    requires texts { AreTextsAt script.now.bytes.items script.now.pieces }
    ensures said { IfOk result (λ said. SaysInTurn
        script.now.bytes.items script.now.pieces said.items) }
    ensures count { IfOk result (λ said. length said.items ≡ length script.now.pieces) }
{
    pieces_said(rt, alloc, script.bytes.as_slice(), script.pieces.as_slice())
}
