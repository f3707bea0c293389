//! Threads of a scope, and whether one was refused.
ghost use Rattle.std.specs.Prelude.{◌≡◌, false, is_ok, IfOk, IfErr};
ghost use Rattle.threaded_callers.specs.Starts.{HaveThreads};

use std::thread::{Promise, PromisedHandle, Scope, SpawnError};

/// Starts threads, and says whether one was refused. Nothing but a refusal makes it say so.
#[derive(Drop)]
pub struct ThreadStarter {
    // How many more it starts.
    left: u64,
    refused: bool,
}

impl ThreadStarter {
    /// One that starts at most so many, and has refused none.
    pub fn new(most: u64) -> ThreadStarter
        ensures left { result.left ≡ most }
        ensures refused { result.refused ≡ false }
    {
        ThreadStarter {
            left: most,
            refused: false,
        }
    }

    /// Whether it has refused one.
    pub fn has_refused(&self) -> bool
        ensures { result ≡ self.now.refused }
    {
        self.refused
    }

    /// Starts a thread of a scope, whose result keeps the promise, or refuses it and hands the closure
    /// back. It refuses where the scope does, where it has started all that it may, and from then on.
    pub fn start<'s, E, P: Promise<T> + Drop, F: FnOnce() -> T + Send + 's, T: Send + Drop + 's>(
        &mut self,
        scope: &Scope<'s, E>,
        promise: P,
        f: F,
    ) -> Result<PromisedHandle<T, P>, SpawnError<F>>
        requires runs { F.pre f }
        requires keeps { (r : T) → F.post f r → P.kept_by promise r }
        ensures ok { IfOk result (λ h. h.promise ≡ promise) }
        ensures err { IfErr result (λ e. e.value ≡ f) }
        ensures threads { HaveThreads 1 (is_ok result) self.old self.new }
    {
        if self.refused {
            return Err(SpawnError { value: f });
        }
        if self.left == 0 {
            self.refused = true;
            return Err(SpawnError { value: f });
        }
        match scope.spawn_with(promise, f) {
            Ok(handle) => {
                self.left -= 1;
                Ok(handle)
            }
            Err(refused) => {
                self.refused = true;
                Err(refused)
            }
        }
    }
}
