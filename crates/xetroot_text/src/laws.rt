//! Laws of the definitions that the contracts of this crate use. Each function does nothing: its contract is the law.

ghost use Rattle.std.specs.Prelude.{◌≡◌, ◌≤◌, ◌⊎◌, ◌↔◌, ℕ, List, ◌∷◌, ◌++◌, length};
ghost use Rattle.upload_session.specs.Session.{Placed};
ghost use Rattle.xetroot_text.specs.Answer.{AreGood, IsAnswer, IsFaultOf, IsOwn};
ghost use Rattle.line_io.specs.Lines.{byte_limit, content, lines_of};
ghost use Rattle.pair_text.specs.Lines.{IsSeparator};
ghost use Rattle.pair_text.specs.PairText as pair_text;
ghost use Rattle.xetroot_text.specs.WithoutPositions as without;
ghost use Rattle.xetroot_text.specs.declared.fault.Fault.{Fault};

/// Each text has exactly one answer, or exactly one fault that comes from the text itself.
pub fn one_answer()
    ensures exists { (text : List ℕ) → ((output : List ℕ) × IsAnswer text output)
        ⊎ ((fault : Fault) × IsOwn fault × IsFaultOf text fault) }
    ensures answer { (text output other : List ℕ) → IsAnswer text output → IsAnswer text other → output ≡ other }
    ensures fault { (text : List ℕ) (fault other : Fault) → IsOwn fault → IsFaultOf text fault → IsOwn other →
        IsFaultOf text other → fault ≡ other }
    ensures never_both { (text output : List ℕ) (fault : Fault) → IsAnswer text output → IsOwn fault →
        ¬ (IsFaultOf text fault) }
{}

/// A text in which no line names a position has the same answer and faults as it has without positions.
pub fn texts_without_positions_keep_their_answers()
    ensures answer { (text output : List ℕ) → pair_text.NoPositions (lines_of text) →
        (IsAnswer text output ↔ pair_text.IsAnswer text output) }
    ensures fault { (text : List ℕ) (fault : Fault) → pair_text.NoPositions (lines_of text) →
        (IsFaultOf text fault ↔ without.IsFaultOf text fault) }
{}

/// Only the pairs and their positions determine the answer. Two texts of good lines that say the same pairs at the same
/// positions have the same answer, wherever ranges end. Adding a separator anywhere doesn't change the answer.
pub fn only_pairs_and_positions_count()
    ensures pairs { (text other output : List ℕ) (pairs : List Placed) (next last : ℕ) →
        AreGood (lines_of text) pairs next → AreGood (lines_of other) pairs last →
        IsAnswer text output → IsAnswer other output }
    ensures separators { (text other output : List ℕ) (before : List (List ℕ)) (line : List ℕ) (after : List (List ℕ)) →
        lines_of text ≡ before ++ after → lines_of other ≡ before ++ line ∷ after → IsSeparator (content line) →
        length other ≤ byte_limit → (IsAnswer text output ↔ IsAnswer other output) }
{}
