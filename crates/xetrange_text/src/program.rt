//! The program `xetrange`, given its arguments and devices.

ghost use Rattle.std.specs.Prelude.{◌≡◌, ◌≢◌, IfErr, IsOkAnd};
ghost use Rattle.std.specs.Io.KnownBytes.{Keeps};
ghost use Rattle.std.specs.IoError.{error_kind};
ghost use Rattle.line_io.specs.Answers.{AnswersInput, WritesOut};
ghost use Rattle.line_io.specs.Requests.{AskForHelp, AskForVersion, words_of};
ghost use Rattle.xetrange_text.specs.Status.{IsStatusOf, exit_status, status_of};
ghost use Rattle.xetrange_text.specs.Words.{AreKnown, HasCommand, IsAnswerOf, IsFaultOf};
ghost use Rattle.xetrange_text.specs.declared.command.Command.{Command};
ghost use Rattle.xetrange_text.specs.declared.fault.RangeFault.{RangeFault};

use crate::command::Command;
use crate::fault::RangeFault;
use line_io::devices::write_all;
use line_io::request::{Request, WRONG_ARGUMENT, print_line};
use std::alloc::{Allocator, Global};
use std::env::Args;
use std::io::{self, ErrorKind, Read, Write};

/// What `xetrange --help` prints.
pub const HELP: &str = "\
Usage: xetrange make|join|root
       xetrange prove FIRST END
       xetrange verify HASH FROM TO

Hashes ranges of a file's chunks separately, and merges them without their chunks.
Proves ranges of chunks, and verifies parts of a file with these proofs. Each command
reads standard input and writes standard output.

  make    reads pairs, chunks and `--`, as xetroot does; writes the line of their range
  join    reads lines of ranges, in order; writes the line of the merged range
  root    reads lines of ranges, in order; writes what xetroot writes for the whole
  prove   reads what make reads; writes the line of the range proof of the chunks from
          number FIRST up to, but without, number END; chunks count from 0
  verify  reads the line of a range proof, and after it the data of its chunks and
          nothing else; writes the bytes of the file with this file hash from the place
          FROM up to, but without, the place TO; writes nothing unless all is right

A fault goes to standard error with its number, which is the exit status: 1 a bad
line, 2 sizes that pass 2^64 - 1, 3 out of memory, 4 a failed read, 5 a failed
write, 8 a line that isn't a range or a range proof, 9 chunks that the input doesn't
have, 10 a proof, data or places that don't match. The status is 64 after a wrong
argument.

  -h, --help    prints this text
  --version     prints the versions of xetrange and of xet-core-structures
";

const VERSION: &str = "xetrange 1.1.0 (hashes of xet-core-structures 1.5.2)\n";

/// Does what the arguments request. Returns the exit status: 0, the number of a fault, or 64 after a wrong argument.
///
/// With the words of a [`Command`] it does what [`Command::run`] does. With `--help` or `--version` it writes a text to
/// `w`. Unless the words are those of a command, it reads nothing of `r`. If the status isn't 0, it writes the reason to
/// `errors` as one line.
pub fn program<R: Read, W: Write, E: Write>(
    alloc: impl Allocator,
    json: Global,
    args: io::Result<Args>,
    r: &mut R,
    w: &mut W,
    errors: &mut E,
) -> u8
    // With the words of a command it does what the command does, and the status shows how that ended.
    ensures command { (command : Command) → HasCommand args command → IsStatusOf result (AnswersInput (IsAnswerOf command)
        (IsFaultOf command) RangeFault.Write (R.remaining r.old) (R.remaining r.new) (W.contents w.old) (W.contents w.new)) }
    ensures help { IsOkAnd args (λ args. AskForHelp (words_of args)) → IsStatusOf result (
        WritesOut HELP.now RangeFault.Write (W.contents w.old) (W.contents w.new)) }
    ensures version { IsOkAnd args (λ args. AskForVersion (words_of args)) → IsStatusOf result (
        WritesOut VERSION.now RangeFault.Write (W.contents w.old) (W.contents w.new)) }
    ensures wrong { IsOkAnd args (λ args. ¬ (AreKnown (words_of args))) → result ≡ WRONG_ARGUMENT }
    ensures unreadable { IfErr args (λ error. (error_kind error ≡ ErrorKind.OutOfMemory → result ≡ 3)
        × (error_kind error ≢ ErrorKind.OutOfMemory → result ≡ WRONG_ARGUMENT)) }
    ensures status { result ≢ 0 → result ≢ WRONG_ARGUMENT → (fault : RangeFault) × (result ≡ status_of fault) }
    ensures unwritten { result ≢ 0 → result ≢ 5 → Keeps (W.contents w.old) (W.contents w.new) }
    ensures unread { ((command : Command) → ¬ HasCommand args command) → Keeps (R.remaining r.old) (R.remaining r.new) }
    ensures silent { result ≡ 0 → Keeps (E.contents errors.old) (E.contents errors.new) }
{
    match Request::read(args) {
        Ok(Request::Command(word, rest)) => match Command::read(&word, rest) {
            Some(command) => report(errors, command.run(alloc, json, r, w)),
            None => refuse(errors),
        },
        Ok(Request::Help) => report(errors, write_text(w, HELP)),
        Ok(Request::Version) => report(errors, write_text(w, VERSION)),
        Ok(Request::Nothing | Request::Unreadable) => refuse(errors),
        Err(_) => report(errors, Err(RangeFault::Memory)),
    }
}

// Writes which arguments there are. Returns the exit status after wrong ones.
fn refuse<E: Write>(errors: &mut E) -> u8
    ensures { result ≡ WRONG_ARGUMENT }
{
    print_line(
        errors,
        "xetrange: expected make, join, root, prove FIRST END, verify HASH FROM TO, --help or --version",
    );
    WRONG_ARGUMENT
}

// Writes the fault that ended a call, if one did. Returns the exit status.
fn report<E: Write>(errors: &mut E, done: Result<(), RangeFault>) -> u8
    ensures status { result ≡ exit_status done }
    ensures silent { result ≡ 0 → Keeps (E.contents errors.old) (E.contents errors.new) }
{
    match done {
        Ok(()) => 0,
        Err(fault) => {
            print_line(errors, fault);
            fault.status()
        }
    }
}

fn write_text<W: Write>(w: &mut W, text: &str) -> Result<(), RangeFault>
    ensures { WritesOut text.now RangeFault.Write (W.contents w.old) (W.contents w.new) result }
{
    Ok(write_all(w, text.as_bytes())?)
}
