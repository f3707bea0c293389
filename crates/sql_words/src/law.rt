//! What holds of every text and its tokens, and of every script and its statements.

ghost use Rattle.sql_words.specs.Laws.{TextsHaveTokensOrFault, TextsHaveOneListOfTokens, TextsOfTokensHaveNoFault, TextsHaveOneTokenFault, TokensStand, TokensCut};
ghost use Rattle.sql_words.specs.Laws.{ScriptsHavePiecesOrFault, ScriptsHaveOneListOfPieces, ScriptsOfPiecesHaveNoFault, ScriptsHaveOneFault};

/// A text either has one list of tokens, or one fault among them.
pub fn a_text_has_tokens_or_one_fault()
    ensures either { TextsHaveTokensOrFault }
    ensures one_list { TextsHaveOneListOfTokens }
    ensures no_fault { TextsOfTokensHaveNoFault }
    ensures one_fault { TextsHaveOneTokenFault }
{}

/// Each token of a text is made of bytes of the text, and stands behind the one before.
#[tactic(auto, using(crate::proofs::TokensStand::tokens_stand))]
pub fn a_token_has_its_bytes()
    ensures { TokensStand }
{}

/// A text may be cut where a token of it begins and where it ends.
pub fn a_text_may_be_cut_at_its_tokens()
    ensures { TokensCut }
{}

/// A script either has one list of statements, or one fault.
pub fn a_script_has_statements_or_one_fault()
    ensures either { ScriptsHavePiecesOrFault }
    ensures one_list { ScriptsHaveOneListOfPieces }
    ensures no_fault { ScriptsOfPiecesHaveNoFault }
    ensures one_fault { ScriptsHaveOneFault }
{}
