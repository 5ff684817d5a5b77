//! The arguments of a call: numbers, bytes, hashes and lists of chunks.

use anyhow::{Context, Result, bail};
use std::alloc::Global;
use xet_hash::data_hash::{MerkleHash, compute_data_hash};
use xet_merkle::aggregated_hashes::Node;

/// Reads a number below 2^64. The greatest one may be written `2^64-1`, and the one before it `2^64-2`.
pub fn number(text: &str) -> Result<u64> {
    match text {
        "2^64-1" => Ok(u64::MAX),
        "2^64-2" => Ok(u64::MAX - 1),
        _ => Ok(text.parse()?),
    }
}

/// Reads two numbers with a space between them.
pub fn two_numbers(text: &str) -> Result<(u64, u64)> {
    let (first, second) = text.split_once(' ').context("no second number")?;
    Ok((first.parse()?, second.parse()?))
}

/// Reads the text between quotes. `\n` in it is a newline.
pub fn quoted(alloc: Global, text: &str) -> Result<String> {
    let inner = text.strip_prefix('"').context("no quote")?;
    let inner = inner.strip_suffix('"').context("no quote at the end")?;
    Ok(inner.replace(alloc, "\\n", "\n")?)
}

/// Reads bytes: decimal numbers, or a text between quotes.
pub fn bytes(alloc: Global, text: &str) -> Result<Vec<u8>> {
    if text.starts_with('"') {
        return Ok(quoted(alloc, text)?.into_bytes());
    }
    let mut bytes = Vec::new(alloc);
    for word in text.split_whitespace() {
        bytes.push(word.parse()?)?;
    }
    Ok(bytes)
}

/// Reads a hash: `Z` is the default hash, `marker` the one of all one bits, and `h1` the random hash of the seed 1. `N7`,
/// `M7` and `C7` have the words 7, 0, 0 and another one. It is 0 in `C7`, 1 in `M7`, and in `N7` 0 since 7 leaves 3 on
/// division by 4. Other hashes are 64 hex digits, or four words with commas.
pub fn hash(text: &str) -> Result<MerkleHash> {
    match text {
        "Z" => return Ok(MerkleHash::default()),
        "marker" => return Ok(MerkleHash::marker()),
        _ => {}
    }
    if text.contains(',') {
        return words(text);
    }
    match named_hash(text) {
        Some(hash) => Ok(hash),
        None => Ok(MerkleHash::from_hex(text)?),
    }
}

// Reads four words with commas between them.
fn words(text: &str) -> Result<MerkleHash> {
    let mut words = [0; 4];
    let mut given = text.split(',');
    for word in words.iter_mut() {
        *word = number(given.next().context("too few words")?)?;
    }
    if given.next().is_some() {
        bail!("too many words");
    }
    Ok(MerkleHash::from(words))
}

// Reads a hash whose name is a letter and a number.
fn named_hash(text: &str) -> Option<MerkleHash> {
    let (letter, number) = text.split_at_checked(1)?;
    let number = number.parse().ok()?;
    numbered_hash(letter, number)
}

// Returns the hash of a letter and a number.
fn numbered_hash(letter: &str, number: u64) -> Option<MerkleHash> {
    let last = match letter {
        "h" => return Some(MerkleHash::random_from_seed(number)),
        "N" => u64::from(number % 4 != 3),
        "M" => 1,
        "C" => 0,
        _ => return None,
    };
    Some(MerkleHash::from([number, 0, 0, last]))
}

/// Reads a list of chunks with spaces between them, or `none`. A chunk is a hash, a colon and a size; without a colon
/// its size is 1. `N0-N19` is the chunks from N0 to N19.
pub fn list(alloc: Global, text: &str) -> Result<Vec<Node>> {
    let mut nodes = Vec::new(alloc);
    if text == "none" {
        return Ok(nodes);
    }
    for word in text.split_whitespace() {
        push_chunks(&mut nodes, word)?;
    }
    Ok(nodes)
}

// Reads a chunk, or several from a first to a last one, and appends them.
fn push_chunks(nodes: &mut Vec<Node>, word: &str) -> Result<()> {
    let (name, size) = match word.rsplit_once(':') {
        Some((name, size)) => (name, number(size)?),
        None => (word, 1),
    };
    match name.split_once('-') {
        Some((first, last)) => push_numbered(nodes, first, last, size),
        None => Ok(nodes.push((hash(name)?, size))?),
    }
}

// Appends the chunks of a letter whose numbers go from a first to a last one.
fn push_numbered(nodes: &mut Vec<Node>, first: &str, last: &str, size: u64) -> Result<()> {
    let (letter, from) = first.split_at_checked(1).context("no first number")?;
    let to = last.strip_prefix(letter).context("another letter")?;
    for number in from.parse::<u64>()?..=to.parse::<u64>()? {
        let hash = numbered_hash(letter, number).context("no such letter")?;
        nodes.push((hash, size))?;
    }
    Ok(())
}

/// Reads two numbers, `of` and a list of chunks.
pub fn range_of_list(alloc: Global, text: &str) -> Result<((u64, u64), Vec<Node>)> {
    let (range, chunks) = text.split_once(" of ").context("no list")?;
    Ok((two_numbers(range)?, list(alloc, chunks)?))
}

/// Reads the data of chunks with `|` between them, and returns their nodes.
pub fn nodes_of_data(alloc: Global, text: &str) -> Result<Vec<Node>> {
    let mut nodes = Vec::new(alloc);
    for data in text.split('|') {
        nodes.push((compute_data_hash(data.as_bytes()), data.len() as u64))?;
    }
    Ok(nodes)
}
