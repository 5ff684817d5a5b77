//! What one line of the input says.

ghost use Rattle.std.specs.Prelude.{◌≡◌, ◌^◌, ◌<◌, ℕ, decimal, IfSome, IfNone};
ghost use Rattle.xet_roots.specs.Groups.{Node};
ghost use Rattle.pair_text.specs.Lines.{IsSeparator, IsPositionLine, IsPairLine};
ghost use Rattle.pair_text.specs.LineSays.{Says};

use std::str;
use xet_hash::data_hash::DataHash;
use xet_roots::aggregated_hashes::Node;

/// A line of the input that isn't bad.
#[derive(Clone, Copy, Debug, PartialEq, Eq)]
pub enum Line {
    /// `--`, which ends a range.
    Separator,
    /// The position of the next pair.
    Position(u64),
    /// A pair of a hash and a size in bytes.
    Pair(Node),
}

const SEPARATOR: &[u8; 2] = b"--";

// The hex digits of a pair line.
const DIGITS_LEN: usize = 64;

/// Returns what a line without a chunk says, or `None` if it is bad. The line comes without its newline.
pub(crate) fn parse(line: &[u8]) -> Option<Line>
    ensures says { IfSome result (Says line.now) }
    ensures no_separator { IfNone result (¬ (IsSeparator line.now)) }
    ensures no_position { IfNone result ((position : ℕ) → ¬ (IsPositionLine line.now position)) }
    ensures no_pair { IfNone result ((node : Node) → ¬ (IsPairLine line.now node)) }
{
    if line == SEPARATOR.as_slice() {
        return Some(Line::Separator);
    }
    if let Some(digits) = line.strip_prefix(b"@") {
        return Some(Line::Position(parse_decimal(digits)?));
    }
    Some(Line::Pair(parse_pair(line)?))
}

// Returns the pair of a pair line.
fn parse_pair(line: &[u8]) -> Option<Node>
    ensures pair { IfSome result (IsPairLine line.now) }
    ensures none { IfNone result ((node : Node) → ¬ (IsPairLine line.now node)) }
{
    let (digits, rest) = line.split_at_checked(DIGITS_LEN)?;
    let Ok(hash) = DataHash::from_hex_digits(digits) else {
        return None;
    };
    let size = parse_decimal(rest.strip_prefix(b" ")?)?;
    Some((hash, size))
}

/// Returns the number that some decimal digits spell, without a sign or leading zeros.
pub fn parse_decimal(digits: &[u8]) -> Option<u64>
    ensures number { IfSome result (λ number. digits.now ≡ decimal number) }
    ensures none { IfNone result ((number : ℕ) → number < 2 ^ 64 → ¬ (digits.now ≡ decimal number)) }
{
    let Ok(text) = str::from_utf8(digits) else {
        return None;
    };
    let Ok(number) = text.parse::<u64>() else {
        return None;
    };
    if itoa::Buffer::new().format(number).as_bytes() != digits {
        return None;
    }
    Some(number)
}
