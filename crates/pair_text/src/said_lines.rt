//! Lines of pairs, passed on as what they say.

ghost use Rattle.std.specs.Prelude.{ℕ, ◌+◌, ◌<◌, ◌≤◌, ◌⊎◌, List, [], ◌∷◌, ◌++◌, length, IfErr, OnErr, OnOk};
ghost use Rattle.std.specs.List.{concat};
ghost use Rattle.line_io.specs.Faults.{IfFaulty};
ghost use Rattle.line_io.specs.Lines.{byte_limit, content};
ghost use Rattle.pair_text.specs.LineSays.{Says, SaysNothing};

use crate::line::Line;
use crate::open_line::OpenLine;
use line_io::fault::Refusal;
use line_io::take_lines::TakeLines;

/// Takes what the lines of an input say, one after another.
pub trait TakeSaid: Drop {
    /// Why a line is faulty.
    type Fault: Drop;

    // What it has taken stands for some good lines.
    ghost stands_for: { Self → List (List ℕ) → Type 0 };

    // The fault of a line after good ones.
    ghost is_fault: { List (List ℕ) → List ℕ → Self.Fault → Type 0 };

    /// Takes what the next line says. After a refusal it stands for the same lines as before.
    fn take(&mut self, said: Line) -> Result<(), Refusal<Self::Fault>>
        ensures taken { OnOk result ((before : List (List ℕ)) (line : List ℕ) →
            length (concat before) + length line ≤ byte_limit → Says (content line) said → stands_for self.old before →
            stands_for self.new (before ++ line ∷ [])) }
        ensures fault { IfErr result (λ refusal. (before : List (List ℕ)) (line : List ℕ) →
            length (concat before) + length line ≤ byte_limit → Says (content line) said → stands_for self.old before →
            IfFaulty refusal (is_fault before line)) }
        ensures kept { OnErr result ((before : List (List ℕ)) → stands_for self.old before → stands_for self.new before) };

    /// Returns the fault of a next line that says nothing, or that contains the first byte past the limit of an input.
    fn bad(&self) -> Self::Fault
        ensures { (before : List (List ℕ)) (line : List ℕ) → stands_for self.now before →
            (byte_limit < length (concat before) + length line) ⊎ SaysNothing line → is_fault before line result };
}

/// What the lines so far say, and the open line in fixed room.
#[derive(Drop)]
pub struct SaidLines<T: TakeSaid> {
    /// What has taken the whole lines.
    pub said: T,
    line: OpenLine,
}

impl<T: TakeSaid> SaidLines<T> {
    /// Starts without lines.
    pub fn new(said: T) -> Self
        requires { T.stands_for said [] }
        ensures { ⟦<SaidLines<T> as TakeLines>⟧.has_taken result [] [] }
    {
        SaidLines {
            said,
            line: OpenLine::new(),
        }
    }
}

impl<T: TakeSaid> TakeLines for SaidLines<T> {
    type Fault = T::Fault;

    ghost use Rattle.pair_text.specs.Steps.Open.{HasTaken};

    ghost has_taken = { HasTaken T.stands_for };

    ghost is_fault = { T.is_fault };

    fn extend_line(&mut self, bytes: &[u8]) -> Result<(), Refusal<T::Fault>> {
        let Ok(()) = self.line.extend(bytes) else {
            return Err(Refusal::Faulty(self.said.bad()));
        };
        Ok(())
    }

    fn end_line(&mut self) -> Result<(), Refusal<T::Fault>> {
        let Some(said) = self.line.says() else {
            return Err(Refusal::Faulty(self.said.bad()));
        };
        self.said.take(said)?;
        self.line.restart();
        Ok(())
    }

    fn past_limit(&self) -> T::Fault {
        self.said.bad()
    }
}
