//! What follows from the definitions, for whoever reasons with them.

ghost use Rattle.cube_schema.specs.Texts.{TextsDeclareOrHaveFault, TextsDeclareOneList, DeclaringTextsHaveNoFault, TextsHaveOneFault, CanonicalTextsDeclare};

/// A text either declares one list of cubes, or has one fault.
pub fn a_text_declares_or_has_one_fault()
    ensures either { TextsDeclareOrHaveFault }
    ensures one_list { TextsDeclareOneList }
    ensures no_fault { DeclaringTextsHaveNoFault }
    ensures one_fault { TextsHaveOneFault }
{}

/// The canonical text of cubes that a text declares declares these cubes too.
pub fn what_is_printed_declares_its_cubes()
    ensures { CanonicalTextsDeclare }
{}
