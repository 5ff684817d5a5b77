//! The law of the programs `xetroot` and `xetrange` together: what `xetrange` writes for ranges that were made
//! separately is what `xetroot` writes for the whole. It follows from the laws of their libraries, which don't use each
//! other.
#![tactic(auto)]

ghost use Rattle.std.specs.Prelude.{◌≡◌, ◌≤◌, ℕ, List, flat_map, length};
ghost use Rattle.line_io.specs.Lines.{byte_limit, lines_of};
ghost use Rattle.xetrange_text.specs.Answers.{IsRootOf};
ghost use Rattle.xetrange_text.specs.Cutting.{InputOf};
ghost use Rattle.xetroot_text.specs.Answer.{IsAnswer};

use xetrange_text::laws::however_it_was_cut;
use xetroot_text::laws::texts_without_positions_keep_their_answers;

/// Cut the lines of a text into pieces in any way, let `make` write the range of each piece, and merge none or some of
/// the adjacent ranges. Then `root` writes the answer of `xetroot` to the text. The function does nothing: its contract
/// is the law.
pub fn root_of_ranges_is_the_answer_of_xetroot()
    ensures { (text output input : List ℕ) (pieces : List (List ℕ)) → lines_of text ≡ flat_map lines_of pieces →
        length text ≤ byte_limit → InputOf pieces input → IsRootOf input output → IsAnswer text output }
{
    however_it_was_cut();
    texts_without_positions_keep_their_answers();
}
