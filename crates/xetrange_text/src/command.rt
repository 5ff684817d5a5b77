//! The commands of the program `xetrange`.

ghost use Rattle.std.specs.Prelude.{◌≡◌, ℕ, ◌^◌, ◌<◌, List, [], ◌∷◌, codes, decimal, IfNone, IfSome};
ghost use Rattle.line_io.specs.Answers.{AnswersInput};
ghost use Rattle.line_io.specs.Requests.{words_left};
ghost use Rattle.xetrange_text.specs.Words.{AskFor, IsAnswerOf, IsFaultOf, IsHexOf};
ghost use Rattle.xetrange_text.specs.declared.command.Command.{Command};
ghost use Rattle.xetrange_text.specs.declared.fault.RangeFault.{RangeFault};

use crate::fault::RangeFault;
use crate::join::{join, root};
use crate::make::make;
use crate::prove::prove;
use crate::verify::verify;
use line_io::request::next_word;
use pair_text::line::parse_decimal;
use std::alloc::{Allocator, Global};
use std::env::Args;
use std::io::{Read, Write};
use xet_hash::data_hash::{DataHash, MerkleHash};

/// What the words of a command request.
#[derive(Clone, Copy, Debug, PartialEq, Eq)]
pub enum Command {
    /// `make`
    Make,
    /// `join`
    Join,
    /// `root`
    Root,
    /// `prove FIRST END`, with both numbers in decimal.
    Prove {
        first: usize,
        end: usize,
    },
    /// `verify HASH FROM TO`, with a file hash in hex and both places in decimal.
    Verify {
        file_hash: MerkleHash,
        from: u64,
        to: u64,
    },
}

impl Command {
    /// Returns the command that a word and the words after it request, or `None` if they request none.
    pub fn read(word: &str, rest: Args) -> Option<Command>
        ensures command { IfSome result (AskFor (word.now ∷ words_left rest)) }
        ensures none { IfNone result ((command : Command) → ¬ AskFor (word.now ∷ words_left rest) command) }
    {
        match word {
            "make" => ended(rest, Command::Make),
            "join" => ended(rest, Command::Join),
            "root" => ended(rest, Command::Root),
            "prove" => read_range(rest),
            "verify" => read_part(rest),
            _ => None,
        }
    }

    /// Does what the call of the command's name does.
    pub fn run<R: Read, W: Write>(
        self,
        alloc: impl Allocator,
        json: Global,
        r: &mut R,
        w: &mut W,
    ) -> Result<(), RangeFault>
        ensures { AnswersInput (IsAnswerOf self) (IsFaultOf self) RangeFault.Write
            (R.remaining r.old) (R.remaining r.new) (W.contents w.old) (W.contents w.new) result }
    {
        match self {
            Command::Make => make(alloc, json, r, w),
            Command::Join => join(alloc, json, r, w),
            Command::Root => root(alloc, json, r, w),
            Command::Prove { first, end } => prove(alloc, json, first, end, r, w),
            Command::Verify {
                file_hash,
                from,
                to,
            } => verify(alloc, json, &file_hash, from, to, r, w),
        }
    }
}

// Returns a command if there are no more words.
fn ended(mut rest: Args, command: Command) -> Option<Command>
    ensures some { IfSome result (λ same. (same ≡ command) × (words_left rest ≡ [])) }
    ensures none { IfNone result (¬ (words_left rest ≡ [])) }
{
    match next_word(&mut rest) {
        None => Some(command),
        Some(_) => None,
    }
}

// Returns the next word as a number in decimal.
fn next_number(rest: &mut Args) -> Option<u64>
    ensures some { IfSome result (λ number. words_left rest.old ≡ decimal number ∷ words_left rest.new) }
    ensures none { IfNone result ((number : ℕ) (more : List (List ℕ)) → number < 2 ^ 64 →
        ¬ (words_left rest.old ≡ decimal number ∷ more)) }
{
    parse_decimal(next_word(rest)?.as_bytes())
}

// Returns the command `prove` of the numbers in its words.
fn read_range(mut rest: Args) -> Option<Command>
    ensures some { IfSome result (AskFor (codes "prove" ∷ words_left rest)) }
    ensures none { IfNone result ((first end : ℕ) → first < 2 ^ 64 → end < 2 ^ 64 →
        ¬ (words_left rest ≡ decimal first ∷ decimal end ∷ [])) }
{
    let first = next_number(&mut rest)? as usize;
    let end = next_number(&mut rest)? as usize;
    ended(rest, Command::Prove { first, end })
}

// Returns the next word as a hash in hex.
fn next_hash(rest: &mut Args) -> Option<MerkleHash>
    ensures some { IfSome result (λ hash. (digits : List ℕ) × (words_left rest.old ≡ digits ∷ words_left rest.new) × IsHexOf digits hash) }
    ensures none { IfNone result ((digits hash : List ℕ) (more : List (List ℕ)) → IsHexOf digits hash →
        ¬ (words_left rest.old ≡ digits ∷ more)) }
{
    match DataHash::from_hex_digits(next_word(rest)?.as_bytes()) {
        Ok(hash) => Some(hash),
        Err(_) => None,
    }
}

// Returns the command `verify` of the hash and the places in its words.
fn read_part(mut rest: Args) -> Option<Command>
    ensures some { IfSome result (AskFor (codes "verify" ∷ words_left rest)) }
    ensures none { IfNone result ((digits file_hash : List ℕ) (from to : ℕ) → IsHexOf digits file_hash → from < 2 ^ 64 → to < 2 ^ 64 →
        ¬ (words_left rest ≡ digits ∷ decimal from ∷ decimal to ∷ [])) }
{
    let file_hash = next_hash(&mut rest)?;
    let from = next_number(&mut rest)?;
    let to = next_number(&mut rest)?;
    ended(
        rest,
        Command::Verify {
            file_hash,
            from,
            to,
        },
    )
}
