ghost use Rattle.std.specs.Prelude.{◌≡◌, ◌≤◌, ◌+◌, ◌++◌, length, take};

/// Copies all the bytes to the front of a piece.
pub fn copy_front(from: &[u8], into: &mut [u8])
    requires { length from.now ≤ length into.old }
    ensures { take (length from.now) into.new ≡ from.now }
{
    into[..from.len()].copy_from_slice(from);
}

/// Copies all the bytes to a place of a room.
pub fn copy_to(room: &mut [u8], at: usize, from: &[u8])
    requires { at + length from.now ≤ length room.old }
    ensures { take (at + length from.now) room.new ≡ take at room.old ++ from.now }
{
    room[at..at + from.len()].copy_from_slice(from);
}
