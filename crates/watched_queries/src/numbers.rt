//! The numbers of a session's holders.
ghost use Rattle.std.specs.Prelude.{◌≡◌, ◌≤◌};
ghost use Rattle.cube_run.specs.SessionStates.{first_holder, other_holder};
ghost use Rattle.watch_holds.specs.HolderStates.{IsHolderOf};

/// The number under which a session sets its watch up.
pub fn first_number(session: u32) -> u32
    requires { session ≤ 16 }
    ensures { result ≡ first_holder session }
{
    16 + session
}

/// The number of a session's holders that is not this one.
pub fn other_number(session: u32, holder: u32) -> u32
    requires few { session ≤ 16 }
    requires holder { IsHolderOf session holder }
    ensures { result ≡ other_holder session holder }
{
    if holder == 16 + session {
        32 + session
    } else {
        16 + session
    }
}
