// Room for a card's numbers: a table of zeros, small where the card is.
ghost use Rattle.std.specs.Prelude.{◌≡◌, ◌≤◌, ℕ, List, true};
ghost use Rattle.std.specs.Fn.{CalledAtMut};
ghost use Rattle.card.specs.Tables.{has_room, room_for, table_size, IsRoomFor};

use crate::{SMALL_CARD, SMALL_TABLE, TABLE};

// Calls a function with a table of this size, which has room for a card of so many bytes.
fn in_table<const SIZE: usize, R, F: FnMut(&mut [u16]) -> R>(bytes: usize, call: &mut F) -> R
    requires sized { SIZE ≡ room_for bytes }
    requires room { has_room bytes SIZE ≡ true }
    requires small { SIZE ≤ table_size }
    requires called { (t : _) → IsRoomFor bytes t.now → F.pre call.old t }
    ensures { (t left : List ℕ) × IsRoomFor bytes t × CalledAtMut F.FnMut call.old t result call.new left }
{
    let mut numbers = [0; SIZE];
    call(&mut numbers)
}

// Calls a function with a table that has room for the numbers of any card of so many bytes: a small card does not pay for clearing the largest
// one's table. The function is lent, so that a caller knows what it wrote. Two wrong ones that this rules out: one that gives every card the small
// table, and one whose table is not cleared.
pub fn with_table<R, F: FnMut(&mut [u16]) -> R>(bytes: usize, call: &mut F) -> R
    requires { (t : _) → IsRoomFor bytes t.now → F.pre call.old t }
    ensures { (t left : List ℕ) × IsRoomFor bytes t × CalledAtMut F.FnMut call.old t result call.new left }
{
    if bytes <= SMALL_CARD {
        in_table::<SMALL_TABLE, R, F>(bytes, call)
    } else {
        in_table::<TABLE, R, F>(bytes, call)
    }
}
