//! The traits of what takes the lines of an input, and of what answers them.

ghost use Rattle.std.specs.Prelude.{ℕ, ◌+◌, ◌<◌, ◌≤◌, List, [], ◌∷◌, ◌++◌, length, IfErr, IfOk, OnErr, OnOk};
ghost use Rattle.std.specs.List.{concat};
ghost use Rattle.line_io.specs.Faults.{IfFaulty};
ghost use Rattle.line_io.specs.Lines.{NoNewline, byte_limit, content, lines_of};

use crate::fault::Refusal;
use std::convert::AsSlice;

/// Takes the lines of an input one after another, each as its bytes come. The implementation decides what a line may
/// say. After a refusal it stands for what it stood for before that call.
///
/// An input has at most 2^40 bytes. Bytes past that limit aren't passed on: [`TakeLines::past_limit`] tells the fault of
/// their line.
pub trait TakeLines: Drop {
    /// Why a line is faulty.
    type Fault: Drop;

    // It has taken some whole good lines, and these bytes of the line after them, without a newline.
    ghost has_taken: { Self → List (List ℕ) → List ℕ → Type 0 };

    // The fault of a line after good ones.
    ghost is_fault: { List (List ℕ) → List ℕ → Self.Fault → Type 0 };

    /// Takes more bytes of the open line. They have no newline.
    fn extend_line(&mut self, bytes: &[u8]) -> Result<(), Refusal<Self::Fault>>
        requires { NoNewline bytes.now }
        ensures taken { OnOk result ((before : List (List ℕ)) (line : List ℕ) → has_taken self.old before line →
            has_taken self.new before (line ++ bytes.now)) }
        ensures fault { IfErr result (λ refusal. (before : List (List ℕ)) (line rest : List ℕ) →
            length (concat before) + length (line ++ bytes.now) ≤ byte_limit → has_taken self.old before line →
            IfFaulty refusal (is_fault before ((line ++ bytes.now) ++ rest))) }
        ensures kept { OnErr result ((before : List (List ℕ)) (line : List ℕ) → has_taken self.old before line →
            has_taken self.new before line) };

    /// Ends the open line.
    fn end_line(&mut self) -> Result<(), Refusal<Self::Fault>>
        ensures taken { OnOk result ((before : List (List ℕ)) (line : List ℕ) →
            length (concat before) + length line ≤ byte_limit → has_taken self.old before (content line) →
            has_taken self.new (before ++ line ∷ []) []) }
        ensures fault { IfErr result (λ refusal. (before : List (List ℕ)) (line : List ℕ) →
            length (concat before) + length line ≤ byte_limit → has_taken self.old before (content line) →
            IfFaulty refusal (is_fault before line)) }
        ensures kept { OnErr result ((before : List (List ℕ)) (line : List ℕ) → has_taken self.old before line →
            has_taken self.new before line) };

    /// Returns the fault of the open line if it contains the first byte past the limit of an input.
    fn past_limit(&self) -> Self::Fault
        ensures { (before : List (List ℕ)) (line rest : List ℕ) →
            byte_limit < length (concat before) + length (line ++ rest) → has_taken self.now before line →
            is_fault before (line ++ rest) result };
}

/// Answers an input none of whose lines is faulty.
pub trait AnswerLines<L: TakeLines>: Drop {
    /// The bytes of an answer.
    type Output: AsSlice<u8> + Drop;

    /// Why such an input has no answer.
    type Fault: Drop;

    // The answer to a text.
    ghost is_answer: { Self → List ℕ → List ℕ → Type 0 };

    // Why a text has no answer.
    ghost is_fault: { Self → List ℕ → Self.Fault → Type 0 };

    /// Returns the answer, after all lines were taken.
    fn answer(self, lines: L) -> Result<Self::Output, Refusal<Self::Fault>>
        ensures answer { IfOk result (λ output. (text : List ℕ) → L.has_taken lines (lines_of text) [] →
            is_answer self text (Self.Output.items output)) }
        ensures fault { IfErr result (λ refusal. (text : List ℕ) → L.has_taken lines (lines_of text) [] →
            IfFaulty refusal (is_fault self text)) };
}
