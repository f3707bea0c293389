//! A session's caller of a core as what gives the texts of a cube their codes.
#![tactic(auto)]

mod asking;
mod cube_texts;
mod encoder;
mod law;
mod rows;

pub use cube_texts::CubeTexts;
pub use encoder::CoreNames;
pub use law::{
    given_numbers_may_be_put, known_numbers_stay_told, names_calls_keep_what_is_held,
    names_calls_leave_no_entries, runs_may_leave_their_names,
};
pub use rows::encode_rows_by_caller;
