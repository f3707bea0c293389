//! What the program is asked to do.

use cube_values::{Text, Texts};

/// What both commands may set.
#[derive(Clone, Copy, Debug, PartialEq, Eq)]
pub struct Settings {
    /// How many shards there are, from 1 to 64.
    pub shards: u32,
    /// After how many commits a round is made besides, where that is asked for: from 1 to 1,000,000.
    pub round_every: Option<u32>,
}

/// The file of a store.
#[derive(Debug, Drop)]
pub struct StoreName {
    pub name: Text,
    /// The store is to be made, and not to be opened.
    pub is_new: bool,
}

/// A run of scripts over the cubes of a file.
#[derive(Debug, Drop)]
pub struct RunCommand {
    pub cubes: Text,
    pub store: Option<StoreName>,
    pub settings: Settings,
    /// A file for each session, from 1 to 16 of them.
    pub scripts: Texts,
}

/// A run over generated rows.
#[derive(Clone, Copy, Debug, PartialEq, Eq)]
pub struct GenerateCommand {
    /// How many rows there are, from 1 to 1,000,000.
    pub rows: u32,
    pub settings: Settings,
}

/// What the program is asked to do.
#[derive(Debug, Drop)]
pub enum Command {
    Run(RunCommand),
    Generate(GenerateCommand),
}
