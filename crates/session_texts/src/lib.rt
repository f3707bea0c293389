//! What a session knows of cubes from one statement to the next: the one that it found last, and the texts of each
//! with their numbers.
#![tactic(auto)]

mod law;
mod texts;

pub use law::told_texts_stay_told;
pub use texts::{FoundCube, SessionTexts, TextsOfCube};
