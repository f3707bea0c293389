//! How a call answers that may want memory besides its own faults.

ghost use Rattle.std.specs.Prelude.{◌≡◌};
ghost use Rattle.cube_values.specs.declared.call_error.CallError.TheVariants.{NoMemory};

use std::alloc::{AllocError, AllocFailed};

/// What a call answers in place of its result. The enum of a call's own faults has no variant for
/// memory, so that it can stand in other faults.
#[derive(Debug, Drop)]
pub enum CallError<F> {
    /// What the call itself refuses.
    Fault(F),
    /// Memory ran out.
    NoMemory,
}

impl<F> From<AllocError> for CallError<F> {
    ghost from_gives = { λ _ e. e ≡ NoMemory };

    fn from(_e: AllocError) -> CallError<F> {
        CallError::NoMemory
    }
}

impl<F, T: Drop> From<AllocFailed<T>> for CallError<F> {
    ghost from_gives = { λ _ e. e ≡ NoMemory };

    fn from(_e: AllocFailed<T>) -> CallError<F> {
        CallError::NoMemory
    }
}
