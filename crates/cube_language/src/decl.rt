//! The declaration of a cube.

use cube_values::{Sequence, Text};

/// The most cubes that there can be at once.
pub const MOST_CUBES: usize = 16;

/// A dimension of a cube.
#[derive(Clone, Debug, PartialEq, Eq, Drop)]
pub struct DimDecl {
    pub name: Text,
    /// Whether its values are texts. Else they are numbers.
    pub text: bool,
    /// How many coordinates it has.
    pub cardinality: u32,
    /// How many coordinates lie in one range.
    pub range: u32,
}

/// Dimensions in order.
pub type DimDecls = Sequence<DimDecl>;

/// Names in order.
pub type Names = Sequence<Text>;

/// A column of a cube: a dimension, or a metric by its name.
#[derive(Clone, Debug, PartialEq, Eq, Drop)]
pub enum Column {
    Dim(DimDecl),
    Metric(Text),
}

/// Columns in order.
pub type Columns = Sequence<Column>;

/// A cube with its dimensions and metrics.
#[derive(Clone, Debug, PartialEq, Eq, Drop)]
pub struct Decl {
    pub name: Text,
    pub dims: DimDecls,
    pub metrics: Names,
}
