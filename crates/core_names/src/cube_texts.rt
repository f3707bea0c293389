//! The texts of a cube that a session knows, with their numbers.

ghost use Rattle.std.specs.Prelude.{◌≡◌, ◌<◌, [], length, replicate, Some, IfOk, OnOk, OnErr};
ghost use Rattle.core_names.specs.KnownNumbers.{number_known, with_number};
ghost use Rattle.row_encoding.specs.FinalCodes.{code_number};

use known_names::Known;
use names_dict::Code;
use std::alloc::{AllocError, Global};
use std::marker::Model;

/// The texts of a cube that are known, by dimension, each with its number. A dimension of numbers
/// has none.
#[derive(Drop)]
pub struct CubeTexts {
    dims: Vec<Known>,
}

impl Model for CubeTexts {
    ghost use Rattle.core_names.specs.KnownNumbers.{TextsByDim};

    ghost Value = { TextsByDim };

    ghost view = { λ c. c.dims.items };
}

impl CubeTexts {
    /// No text of so many dimensions.
    pub fn new(alloc: Global, dims: usize) -> Result<CubeTexts, AllocError>
        ensures { IfOk result (λ texts. texts ≡ replicate dims []) }
    {
        let mut known = Vec::with_capacity(alloc, dims)?;
        'dims: for _dim in 0..dims {
            known.push(Known::new(alloc))?;
        }
        Ok(CubeTexts { dims: known })
    }

    /// The number of a text in a dimension, None where it is not known.
    pub fn find(&self, dim: u32, text: &[u8]) -> Option<u32>
        requires { dim < length self.now }
        ensures { result ≡ number_known self.now dim text.now }
    {
        self.dims[dim as usize].find(text)
    }

    /// Learns the number of a text in a dimension, where its code gives one. Where memory is wanted
    /// nothing changes.
    pub fn learn(&mut self, dim: u32, text: &[u8], code: Code) -> Result<(), AllocError>
        requires { dim < length self.old }
        ensures learned { OnOk result
            (self.new ≡ with_number self.old dim text.now (code_number code)) }
        ensures err { OnErr result (self.new ≡ self.old) }
    {
        match code {
            Code::Known(number) | Code::Added(number) => self.add(dim, text, number),
            Code::Full => Ok(()),
        }
    }

    fn add(&mut self, dim: u32, text: &[u8], number: u32) -> Result<(), AllocError>
        requires { dim < length self.old }
        ensures learned { OnOk result (self.new ≡ with_number self.old dim text.now (Some number)) }
        ensures err { OnErr result (self.new ≡ self.old) }
    {
        self.dims[dim as usize].learn(text, number)
    }
}
