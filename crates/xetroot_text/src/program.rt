//! The program `xetroot`, given its arguments and devices.

ghost use Rattle.std.specs.Prelude.{◌≡◌, ◌≢◌, [], IfErr, IfSome, IsOkAnd};
ghost use Rattle.std.specs.Io.KnownBytes.{Keeps};
ghost use Rattle.std.specs.IoError.{error_kind};
ghost use Rattle.line_io.specs.Answers.{AnswersInput, WritesOut};
ghost use Rattle.line_io.specs.Requests.{AskForHelp, AskForVersion, HasWords, words_of};
ghost use Rattle.xetroot_text.specs.Answer.{IsAnswer, IsFaultOf};
ghost use Rattle.xetroot_text.specs.Status.{IsStatusOf, exit_status, status_of};
ghost use Rattle.xetroot_text.specs.Words.{AreKnown};

use crate::fault::Fault;
use crate::run::run_with;
use chunk_ranges::chunk_range::ChunkRange;
use line_io::devices::write_all;
use line_io::request::{Request, WRONG_ARGUMENT, print_line};
use std::env::Args;
use std::io::{self, ErrorKind, Read, Write};

/// What `xetroot --help` prints.
pub const HELP: &str = "\
Usage: xetroot

The root and the file hash of the pairs and chunks in the lines of standard input,
as `xorb <hex>` and `file <hex>` on standard output. A line is

  <64 hex digits> <size>    a pair
  +<bytes>                  a chunk, whose pair is its hash and its size
  @<position>               the position of the next pair
  --                        the end of a range, which changes nothing

A fault goes to standard error with its number, which is the exit status: 1 a bad
line, 2 sizes that pass 2^64 - 1, 3 out of memory, 4 a failed read, 5 a failed write,
6 a position that is taken, 7 a gap. The status is 64 after a wrong argument.

  -h, --help    prints this text
  --version     prints the versions of xetroot and of xet-core-structures
";

const VERSION: &str = "xetroot 1.1.0 (hashes of xet-core-structures 1.5.2)\n";

/// Does what the arguments request. Returns the exit status: 0, the number of a fault, or 64 after a wrong argument.
///
/// Without arguments it does what [`run_with`] does. With `--help` or `--version` it writes a text to `w`, and with any
/// arguments it reads nothing of `r`. If the status isn't 0, it writes the reason to `errors` as one line. It keeps each
/// run of adjacent positions as one `C`.
pub fn program<C: ChunkRange, R: Read, W: Write, E: Write>(
    alloc: C::Alloc,
    args: io::Result<Args>,
    r: &mut R,
    w: &mut W,
    errors: &mut E,
) -> u8
    // Without a word it does what `run_with` does, and the status shows how that ended.
    ensures run { HasWords args [] → IsStatusOf result (AnswersInput IsAnswer IsFaultOf Fault.Write
        (R.remaining r.old) (R.remaining r.new) (W.contents w.old) (W.contents w.new)) }
    ensures help { IsOkAnd args (λ args. AskForHelp (words_of args)) → IsStatusOf result (
        WritesOut HELP.now Fault.Write (W.contents w.old) (W.contents w.new)) }
    ensures version { IsOkAnd args (λ args. AskForVersion (words_of args)) → IsStatusOf result (
        WritesOut VERSION.now Fault.Write (W.contents w.old) (W.contents w.new)) }
    ensures wrong { IsOkAnd args (λ args. ¬ (AreKnown (words_of args))) → result ≡ WRONG_ARGUMENT }
    ensures unreadable { IfErr args (λ error. (error_kind error ≡ ErrorKind.OutOfMemory → result ≡ 3)
        × (error_kind error ≢ ErrorKind.OutOfMemory → result ≡ WRONG_ARGUMENT)) }
    ensures fault { result ≢ 0 → result ≢ WRONG_ARGUMENT → IfSome (R.remaining r.old) (λ text.
        (fault : Fault) × (result ≡ status_of fault) × IsFaultOf text fault) }
    ensures unwritten { result ≢ 0 → result ≢ 5 → Keeps (W.contents w.old) (W.contents w.new) }
    ensures unread { ¬ HasWords args [] → Keeps (R.remaining r.old) (R.remaining r.new) }
    ensures silent { result ≡ 0 → Keeps (E.contents errors.old) (E.contents errors.new) }
{
    match Request::read(args) {
        Ok(Request::Nothing) => report(errors, run_with::<C, R, W>(alloc, r, w)),
        Ok(Request::Help) => report(errors, write_text(w, HELP)),
        Ok(Request::Version) => report(errors, write_text(w, VERSION)),
        Ok(Request::Command(..) | Request::Unreadable) => {
            print_line(errors, "xetroot: expected no argument, --help or --version");
            WRONG_ARGUMENT
        }
        Err(_) => report(errors, Err(Fault::Memory)),
    }
}

// Writes the fault that ended a call, if one did. Returns the exit status.
fn report<E: Write>(errors: &mut E, done: Result<(), Fault>) -> u8
    ensures status { result ≡ exit_status done }
    ensures silent { result ≡ 0 → Keeps (E.contents errors.old) (E.contents errors.new) }
{
    match done {
        Ok(()) => 0,
        Err(fault) => {
            print_line(errors, fault);
            fault.status()
        }
    }
}

fn write_text<W: Write>(w: &mut W, text: &str) -> Result<(), Fault>
    ensures { WritesOut text.now Fault.Write (W.contents w.old) (W.contents w.new) result }
{
    Ok(write_all(w, text.as_bytes())?)
}
