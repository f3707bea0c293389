//! What words give, before any of it is judged.

use cube_values::{Text, Texts};

/// What the words give: the value of each option that stands among them, whether the flag does, and the rest.
#[derive(Debug, Drop)]
pub struct Given {
    pub cubes: Option<Text>,
    pub store: Option<Text>,
    pub is_new: bool,
    pub shards: Option<Text>,
    pub round_every: Option<Text>,
    pub generate: Option<Text>,
    pub scripts: Texts,
}
