//! What follows from the definitions, for whoever reasons with them.

ghost use Rattle.run_words.specs.Laws.{AskingWordsHaveNoFault, WordsAskForOneCommand, WordsAskOrHaveFault, WordsHaveOneFault};

/// Words either ask for one command, or have one fault.
pub fn words_ask_for_a_command_or_have_one_fault()
    ensures either { WordsAskOrHaveFault }
    ensures one_command { WordsAskForOneCommand }
    ensures no_fault { AskingWordsHaveNoFault }
    ensures one_fault { WordsHaveOneFault }
{}
