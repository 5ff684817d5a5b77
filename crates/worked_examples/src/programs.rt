//! The programs `xetroot` and `xetrange`, on lines with slashes between them.

use crate::read::hash;
use anyhow::{Context, Result, bail};
use std::alloc::Global;
use std::fmt::Display;
use xet_merkle::plain_range::PlainRange;
use xetrange_text::fault::RangeFault;
use xetrange_text::join::{join, root};
use xetrange_text::make::make;
use xetrange_text::prove::prove;
use xetrange_text::verify::verify;
use xetroot_text::fault::Fault;
use xetroot_text::run::{run, run_with};

/// Runs a program. Returns `None` if there is none of this name.
pub fn answer(alloc: Global, name: &str, arguments: &str) -> Result<Option<String>> {
    let text = match name {
        "xetroot" => xetroot(alloc, lines(alloc, arguments)?.as_bytes())?,
        "xetrange" => xetrange(alloc, arguments)?,
        _ => return Ok(None),
    };
    Ok(Some(text))
}

// Returns the lines of an input. A slash at the end is a newline at the end, and `nothing` is no input. A line may be
// `empty`, and may begin with the name of a hash.
fn lines(alloc: Global, arguments: &str) -> Result<String> {
    let mut text = String::new(alloc);
    if arguments == "nothing" {
        return Ok(text);
    }
    let (inner, end) = match arguments.strip_suffix(" /") {
        Some(inner) => (inner, "\n"),
        None => (arguments, ""),
    };
    for (i, line) in inner.split(" / ").enumerate() {
        if i > 0 {
            text.push('\n')?;
        }
        text.push_str(whole_line(alloc, line)?.as_str())?;
    }
    text.push_str(end)?;
    Ok(text)
}

// Returns a line with the hash of its name written out.
fn whole_line(alloc: Global, line: &str) -> Result<String> {
    if line == "empty" {
        return Ok(String::new(alloc));
    }
    if let Some((name, size)) = line.split_once(' ') {
        if let Ok(hash) = hash(name) {
            return Ok(format!(in alloc; "{hash} {size}")?);
        }
    }
    Ok(String::from_str(alloc, line)?)
}

// Returns the lines of an output with commas between them, or the text of a fault.
fn told<E: Display + Drop>(alloc: Global, end: Result<(), E>, output: Vec<u8>) -> Result<String> {
    if let Err(fault) = end {
        return Ok(fault.to_string(alloc)?);
    }
    let text = String::from_utf8(output).ok().context("no text")?;
    Ok(text.as_str().trim_end().replace(alloc, "\n", ", ")?)
}

// Returns what `xetroot` writes, if that is the same for both kinds of ranges.
fn xetroot(alloc: Global, input: &[u8]) -> Result<String> {
    let (mut reader, mut output) = (input, Vec::new(alloc));
    let end: Result<(), Fault> = run(alloc, &mut reader, &mut output);
    let over_subtrees = told(alloc, end, output)?;
    let (mut reader, mut output) = (input, Vec::new(alloc));
    let end = run_with::<PlainRange, _, _>(alloc, &mut reader, &mut output);
    if told(alloc, end, output)? != over_subtrees {
        bail!("plain ranges give another answer");
    }
    Ok(over_subtrees)
}

// Runs a command of `xetrange`. With `of` it first runs `make` for pieces of the input, which have bars between them.
fn xetrange(alloc: Global, arguments: &str) -> Result<String> {
    let (command, input) = arguments.split_once(' ').context("no input")?;
    if command == "prove" || command == "verify" {
        return xetrange_of_part(alloc, command, input);
    }
    let input = match input.strip_prefix("of ") {
        Some(pieces) => made(alloc, pieces)?,
        None => lines(alloc, input)?,
    };
    let (end, output) = run_command(alloc, command, input.as_bytes())?;
    told(alloc, end, output)
}

// Runs `prove FIRST END` or `verify HASH FROM TO`.
fn xetrange_of_part(alloc: Global, command: &str, arguments: &str) -> Result<String> {
    let (first, rest) = arguments.split_once(' ').context("no second word")?;
    let (second, rest) = rest.split_once(' ').context("no input")?;
    let mut output = Vec::new(alloc);
    if command == "prove" {
        let text = lines(alloc, rest)?;
        let (first, end) = (first.parse()?, second.parse()?);
        let done = prove(alloc, alloc, first, end, &mut text.as_bytes(), &mut output);
        return told(alloc, done, output);
    }
    let (third, input) = rest.split_once(' ').context("no input")?;
    let text = lines(alloc, input)?;
    let (file_hash, from, to) = (hash(first)?, second.parse()?, third.parse()?);
    let mut reader = text.as_bytes();
    let done = verify(alloc, alloc, &file_hash, from, to, &mut reader, &mut output);
    told(alloc, done, output)
}

// Returns the lines of the ranges that `make` writes for pieces of an input.
fn made(alloc: Global, pieces: &str) -> Result<String> {
    let mut text = String::new(alloc);
    for piece in pieces.split(" | ") {
        let (end, output) = run_command(alloc, "make", lines(alloc, piece)?.as_bytes())?;
        text.push_str(told(alloc, end, output)?.as_str())?;
        text.push('\n')?;
    }
    Ok(text)
}

// Runs a command. Returns how it ended, and what it wrote.
fn run_command(
    alloc: Global,
    command: &str,
    input: &[u8],
) -> Result<(Result<(), RangeFault>, Vec<u8>)> {
    let (mut reader, mut output) = (input, Vec::new(alloc));
    let end = match command {
        "make" => make(alloc, alloc, &mut reader, &mut output),
        "join" => join(alloc, alloc, &mut reader, &mut output),
        "root" => root(alloc, alloc, &mut reader, &mut output),
        _ => bail!("no such command"),
    };
    Ok((end, output))
}
