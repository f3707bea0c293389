//! What holds of every text and its statement, and of every statement and its printed form.

ghost use Rattle.sql_tree.specs.Laws.{TextsSpellOrHaveFault, TextsSpellOneStatement, SpellingTextsHaveNoFault, TextsHaveOneSyntaxFault, PrintedFormsSpell};

use sql_words::a_text_has_tokens_or_one_fault;

/// A text either spells one statement, or has a fault at one place.
pub fn a_text_spells_or_has_one_fault()
    ensures either { TextsSpellOrHaveFault }
    ensures one_statement { TextsSpellOneStatement }
    ensures no_fault { SpellingTextsHaveNoFault }
    ensures one_fault { TextsHaveOneSyntaxFault }
{
    a_text_has_tokens_or_one_fault();
}

/// The printed form of a statement that some text spells spells that statement.
#[tactic(auto, using(crate::proofs::SoundForms::printed_spells))]
pub fn what_is_printed_spells_its_statement()
    ensures { PrintedFormsSpell }
{}
