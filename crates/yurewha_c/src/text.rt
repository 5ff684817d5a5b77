//! Text in the caller's room.

ghost use Rattle.std.specs.Prelude.{◌≡◌, ◌<◌, ◌≤◌, ◌++◌, drop, length};

use crate::status::{DONE, ROOM};

// Writes a text to the beginning of a room, and its length to `text_len`. If the room is too small, it writes nothing
// to the room and returns `ROOM`.
pub(crate) fn write_text(text: &[u8], room: &mut [u8], text_len: &mut usize) -> u32
    ensures written { length text.now ≤ length room.old → room.new ≡ text.now ++ drop (length text.now) room.old }
    ensures done { length text.now ≤ length room.old → result ≡ DONE }
    ensures unchanged { length room.old < length text.now → room.new ≡ room.old }
    ensures room { length room.old < length text.now → result ≡ ROOM }
    ensures len { text_len.new ≡ length text.now }
{
    *text_len = text.len();
    if room.len() < text.len() {
        return ROOM;
    }
    room[..text.len()].copy_from_slice(text);
    DONE
}
