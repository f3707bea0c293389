//! How words give what they give, part by part, and that `clap` reads them so.
#![tactic(auto)]

ghost use Rattle.word_parts.specs.Laws.{PartsAreTaken, TakenAreInParts};

/// Words that are made of parts, none of them twice, are taken, and give what the parts give.
pub fn words_in_parts_are_taken()
    ensures { PartsAreTaken }
{}

/// Words that `clap` takes are made of parts, none of them twice.
pub fn words_that_are_taken_are_in_parts()
    ensures { TakenAreInParts }
{}
