//! What follows from the definitions, for whoever reasons with them.

ghost use Rattle.std.specs.Prelude.{◌≡◌, List, Option};
ghost use Rattle.run_files.specs.declared.bad_file.BadFile.{BadFile};
ghost use Rattle.run_files.specs.RunFiles.{FileReading, FilesEnd, RunFile};

use cube_schema::a_text_declares_or_has_one_fault;
use sql_words::a_script_has_statements_or_one_fault;

/// What reading the files comes to decides whether all are in order, or which is the first that is bad, and how: there is
/// always an end, and no other.
pub fn files_decide_their_end()
    ensures some { (reading : RunFile → FileReading) (files : List RunFile)
        → (end : Option BadFile) × FilesEnd reading files end }
    ensures one { (reading : RunFile → FileReading) (files : List RunFile) (a b : Option BadFile)
        → FilesEnd reading files a → FilesEnd reading files b → a ≡ b }
{
    a_text_declares_or_has_one_fault();
    a_script_has_statements_or_one_fault();
}
