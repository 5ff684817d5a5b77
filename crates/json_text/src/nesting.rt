//! How deep a text is nested.

ghost use Rattle.std.specs.Prelude.{◌≡◌, ◌↔◌, ◌+◌, ◌^◌, ◌<◌, IsTrue};
ghost use Rattle.json_text.specs.JsonText.{IsShallow};
ghost use Rattle.json_text.specs.Nesting.{after};

/// How deep a text may be nested: six times as deep as any that this library writes.
pub const DEEPEST: usize = 32;

/// Where a byte of a text stands.
#[derive(Clone, Copy)]
pub enum Place {
    /// It is in no string.
    Outside,
    /// It is in a string.
    InString,
    /// It is in a string, right after a `\`.
    AfterBackslash,
}

// Returns where the byte after this one stands, and how many brackets are unclosed there.
fn after(place: Place, unclosed: usize, byte: u8) -> (Place, usize)
    requires { unclosed + 1 < 2 ^ 64 }
    ensures { result ≡ after (place, unclosed) byte }
{
    match place {
        Place::Outside => match byte {
            b'"' => (Place::InString, unclosed),
            b'[' | b'{' => (Place::Outside, unclosed + 1),
            b']' | b'}' => (Place::Outside, unclosed.saturating_sub(1)),
            _ => (Place::Outside, unclosed),
        },
        Place::InString => match byte {
            b'"' => (Place::Outside, unclosed),
            b'\\' => (Place::AfterBackslash, unclosed),
            _ => (Place::InString, unclosed),
        },
        Place::AfterBackslash => (Place::InString, unclosed),
    }
}

/// Returns whether a text is nested at most [`DEEPEST`] deep. It may be no JSON. Time is in proportion to the text, and
/// neither heap nor stack is.
pub fn is_shallow(text: &[u8]) -> bool
    ensures { IsTrue result ↔ IsShallow text.now }
{
    let mut place = Place::Outside;
    let mut unclosed = 0usize;
    'bytes: for byte in text {
        (place, unclosed) = after(place, unclosed, *byte);
        if unclosed > DEEPEST {
            return false;
        }
    }
    true
}
