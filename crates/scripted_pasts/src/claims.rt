//! What is asked of runs for which promises are made.

use core_states::Besides;

/// Runs that open with their cubes, and in which a round follows after so many commits of a session (0: after none).
#[derive(Clone, Copy, Debug)]
pub struct OpeningClaim {
    pub every: u32,
}

impl Besides for OpeningClaim {
    ghost use Rattle.scripted_pasts.specs.ScriptClaims.{OpensForScripts};

    ghost claim = { λ asked. OpensForScripts asked.every };
}

/// Runs of scripts, in which a round follows after so many commits of a session (0: after none).
#[derive(Clone, Copy, Debug)]
pub struct ScriptClaim {
    pub every: u32,
}

impl Besides for ScriptClaim {
    ghost use Rattle.scripted_pasts.specs.ScriptClaims.{IsRunOfScripts};

    ghost claim = { λ asked. IsRunOfScripts asked.every };
}
