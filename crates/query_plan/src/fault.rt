//! Why a statement is not bound.

ghost use Rattle.std.specs.Prelude.{◌≡◌};
ghost use Rattle.query_plan.specs.Refusals.{refusal_of};

use cube_journal::Refusal;
use cube_language::Misfit;
use cube_values::Text;
use thiserror::Error;

/// Why a statement is bound to none of some cubes.
#[derive(Clone, Debug, PartialEq, Eq, Drop, Error)]
pub enum BindFault {
    /// No cube has the name.
    #[error("UnknownCube {name}")]
    UnknownCube { name: Text },
    /// The statement fails a test on its cube.
    #[error("{misfit}")]
    Unfit { misfit: Misfit },
}

impl BindFault {
    /// The refusal that tells it. It takes no memory.
    pub fn into_refusal(self) -> Refusal
        ensures { result ≡ refusal_of self }
    {
        match self {
            BindFault::UnknownCube { name } => Refusal::UnknownCube { name },
            BindFault::Unfit { misfit } => Refusal::of_misfit(misfit),
        }
    }
}
