//! What the arguments of a program request, and how it reports a fault.

ghost use Rattle.std.specs.Prelude.{◌≡◌, ◌↔◌, [], ◌∷◌, IfErr, IfOk, IfSome, IfNone, IsErr, IsOkAnd};
ghost use Rattle.std.specs.IoError.{error_kind};
ghost use Rattle.std.specs.String.{string_bytes};
ghost use Rattle.line_io.specs.Requests.{AskFor, words_left, words_of};
ghost use Rattle.line_io.specs.declared.request.Request.TheVariants.{Unreadable};

use crate::devices::write_all;
use arrayvec::ArrayString;
use std::alloc::AllocError;
use std::env::Args;
use std::fmt::{self, Write as _};
use std::io::{self, ErrorKind, Write};

/// The exit status after a wrong argument, from `sysexits.h`.
pub const WRONG_ARGUMENT: u8 = 64;

// The most bytes of a line that is written in one piece.
const ONE_PIECE_LEN: usize = 100;

/// What the words after a program's name request.
#[derive(Drop)]
pub enum Request {
    /// There is no word.
    Nothing,
    /// The only word is `-h` or `--help`.
    Help,
    /// The only word is `--version`.
    Version,
    /// Another word, and the words after it.
    Command(String, Args),
    /// The arguments can't be read, for example because one isn't UTF-8.
    Unreadable,
}

impl Request {
    /// Returns what some arguments request. The first argument is the program's name.
    ///
    /// Fails only if the arguments can't be read because an allocation failed.
    pub fn read(args: io::Result<Args>) -> Result<Request, AllocError>
        ensures words { IfOk args (λ args. IsOkAnd result (λ request. AskFor (words_of args) request)) }
        ensures unreadable { IfErr args (λ _. IfOk result (λ request. request ≡ Unreadable)) }
        ensures refused { IfErr args (λ error. IsErr result ↔ (error_kind error ≡ ErrorKind.OutOfMemory)) }
    {
        let mut args = match args {
            Ok(args) => args,
            Err(error) if error.kind() == ErrorKind::OutOfMemory => return Err(AllocError),
            Err(_) => return Ok(Request::Unreadable),
        };
        let _program = args.next();
        let Some(word) = args.next() else {
            return Ok(Request::Nothing);
        };
        if args.len() > 0 {
            return Ok(Request::Command(word, args));
        }
        Ok(match word.as_str() {
            "-h" | "--help" => Request::Help,
            "--version" => Request::Version,
            _ => Request::Command(word, args),
        })
    }
}

/// Returns the next of some words.
pub fn next_word(words: &mut Args) -> Option<String>
    ensures word { IfSome result (λ word. words_left words.old ≡ string_bytes word ∷ words_left words.new) }
    ensures none { IfNone result (words_left words.old ≡ []) }
{
    words.next()
}

/// Writes a text and a newline, whatever their length. Up to 100 bytes are written in one piece, and more in the pieces
/// that the text consists of. After a failed write it writes nothing more. The caller's status still shows the fault.
pub fn print_line<W: Write>(w: &mut W, text: impl fmt::Display + Drop) {
    let mut line: ArrayString<ONE_PIECE_LEN> = ArrayString::new();
    let _ = match writeln!(line, "{text}") {
        Ok(()) => Pieces { w }.write_str(line.as_str()),
        Err(_) => writeln!(Pieces { w }, "{text}"),
    };
}

// Writes each piece of a text as it comes.
#[derive(Drop)]
struct Pieces<'a, W: Write> {
    w: &'a mut W,
}

impl<W: Write> fmt::Write for Pieces<'_, W> {
    fn write_str(&mut self, piece: &str) -> fmt::Result {
        write_all(self.w, piece.as_bytes()).map_err(|_| fmt::Error)
    }
}
