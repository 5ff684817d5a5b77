//! The version of the library.

ghost use Rattle.yurewha_c.specs.Texts.{WritesText, version_text};

use crate::text::write_text;

/// Writes the version of the library to `room`, and its length to `text_len`. The version is three numbers with points
/// between them. The version of the header is `YUREWHA_VERSION`. It allocates nothing.
///
/// - `DONE`: it is written.
/// - `ROOM`: the version doesn't fit, and `text_len` is the needed length.
///
/// Since 1.1.
#[unsafe(no_mangle)]
pub extern "C" fn yurewha_version(room: &mut [u8], text_len: &mut usize) -> u32
    ensures { WritesText version_text room.old room.new text_len.new result }
{
    write_text("1.1.0".as_bytes(), room, text_len)
}
