//! Reads lines, and writes one answer.

ghost use Rattle.std.specs.Prelude.{[]};
ghost use Rattle.line_io.specs.Answers.{AnswersInput};
ghost use Rattle.line_io.specs.Faults.{IsFaultOf};
ghost use Rattle.line_io.specs.declared.fault.AnswerFault.TheVariants.{Write};

use crate::devices::write_all;
use crate::fault::AnswerFault;
use crate::reading::read_lines;
use crate::take_lines::{AnswerLines, TakeLines};
use std::convert::AsSlice;
use std::io::{Read, Write};

/// Reads lines to the end of `r`. Then writes the answer to them to `w`, and flushes it.
///
/// `lines` must have taken nothing yet. The call writes nothing before it has accepted the whole input. After
/// [`AnswerFault::Write`] it has written a beginning of the output, and after any other fault nothing. How much of the
/// input it has read after a fault isn't specified.
pub fn answer_lines<L: TakeLines, A: AnswerLines<L>, R: Read, W: Write>(
    lines: L,
    answers: A,
    r: &mut R,
    w: &mut W,
) -> Result<(), AnswerFault<L::Fault, A::Fault>>
    requires { L.has_taken lines [] [] }
    ensures { AnswersInput (A.is_answer answers) (IsFaultOf L.is_fault (A.is_fault answers)) Write
        (R.remaining r.old) (R.remaining r.new) (W.contents w.old) (W.contents w.new) result }
{
    let lines = read_lines(lines, r)?;
    let output = answers.answer(lines)?;
    Ok(write_all(w, output.as_slice())?)
}
