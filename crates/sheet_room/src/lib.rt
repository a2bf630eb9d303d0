// Memory in which every sheet has room.
#![tactic(auto)]

ghost use Rattle.std.specs.Prelude.{◌≡◌, length, replicate};
ghost use Rattle.sheet_room.specs.Room.{sheet_room};

pub const SHEET_ROOM: usize = 468_736;

pub fn sheet_room() -> [u8; SHEET_ROOM]
    ensures zeros { result ≡ replicate sheet_room 0 }
    ensures size { length result ≡ sheet_room }
{
    [0; SHEET_ROOM]
}
