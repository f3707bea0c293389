//! How room for more items grows.

ghost use Rattle.std.specs.Prelude.{◌≡◌, ◌≤◌};
ghost use Rattle.cube_values.specs.Rooms.{grown_room};

/// The room to ask for where `least` items are wanted in all and there is room for `room`. As it doubles,
/// items that come one by one take time by their number.
pub fn grown_room(room: u64, least: u64) -> u64
    ensures value { result ≡ grown_room room least }
    ensures enough { least ≤ result }
    ensures kept { room ≤ result }
{
    if least <= room {
        room
    } else {
        room.saturating_mul(2).max(least)
    }
}
