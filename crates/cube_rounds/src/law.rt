//! What follows from the definitions, for whoever reasons with them.

ghost use Rattle.cube_rounds.specs.Stands.{HeadersStand, RoundsFollow};

/// A header alone stands for its cubes, and a file with one more round behind it stands for what it kept with
/// that round, whatever follows the gate that is shut.
#[tactic(auto, using(crate::proofs::OneMore::headers_stand))]
pub fn files_stand_round_by_round()
    ensures header { HeadersStand }
    ensures round { RoundsFollow }
{}
