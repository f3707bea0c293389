//! What follows from the definitions, for whoever reasons with them.

ghost use Rattle.script_sentences.specs.Sentences.{ScriptsHaveOneListOfSentences, ScriptsHaveSentences};

use sql_tree::a_text_spells_or_has_one_fault;

/// The texts of a script say sentences in turn, and one list of them.
pub fn a_script_says_one_list()
    ensures some { ScriptsHaveSentences }
    ensures one { ScriptsHaveOneListOfSentences }
{
    a_text_spells_or_has_one_fault();
}
