//! A session before its first statement.

ghost use Rattle.std.specs.Prelude.{◌≡◌, ℕ, List, [], unwrap_or};
ghost use Rattle.cube_language.specs.declared.decl.Decl.{Decl};
ghost use Rattle.cube_run.specs.SessionStates.{fresh_session};
ghost use Rattle.one_session.specs.Pasts.{Beginning, nothing_behind};
ghost use Rattle.aosi_desk.specs.Desks.{opening_desk};
ghost use Rattle.session_desk.specs.AtDesk.{IsAtDesk};
ghost use Rattle.session_desk.specs.Standing.{StandsBehind, session_state};

use crate::session::Session;
use session_replies::SessionMode;

impl Session {
    /// A session before its first statement, for a desk that opens. A round follows after each so many commits.
    pub fn new(round_every: Option<u32>) -> Session
        ensures fresh { session_state result ≡ fresh_session }
        ensures none { result.statements ≡ 0 }
        ensures at { (safe : ℕ) (cubes : List Decl) → IsAtDesk (opening_desk safe 1 cubes) result }
        ensures stands { (beginning : Beginning) → beginning.round_every ≡ unwrap_or round_every 0
            → StandsBehind beginning (nothing_behind beginning) (record {
              desk = opening_desk beginning.safe 1 beginning.cubes;
              names = beginning.kept_names;
              session = result;
              done = [];
            }) }
    {
        Session {
            mode: SessionMode::Idle,
            statements: 0,
            commits: 0,
            round_every,
        }
    }
}
