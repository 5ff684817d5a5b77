//! The writer that hashes what it passes on. Each call of it is one call of the inner writer, and returns the same.
//! `write_all` makes as many calls as needed.

use rand_core::{Rng, SeedableRng};
use rand_xoshiro::Xoshiro256PlusPlus;
use std::alloc::Global;
use std::fmt::Write as _;
use std::io::{self, ErrorKind, Write};
use std::process::Abort;
use std::str::Lines;
use xet_hash::data_hash::{DataHash, HashedWrite, compute_data_hash};

// Calls of one writer in turn. Each row has the length of its slice, how many bytes are taken, and the result. An error
// has its kind, its code and its text. The rows that follow and begin with `>` are the calls of the inner writer. Each
// has the length of its slice, and the result: a number, the code of an error, or a word for an error without a code.
const CALLS: &str = "write 6 6 6
> write 6 6
write 0 0 0
> write 0 0
flush 0 0 0
> flush 0 0
write 10000 10000 10000
> write 10000 10000
flush 0 0 StorageFull Some(28) No space left on device (os error 28)
> flush 0 code:28
write 10000 5000 5000
> write 10000 5000
write 10000 0 BrokenPipe Some(32) Broken pipe (os error 32)
> write 10000 code:32
write 6 0 0
> write 6 0
flush 0 0 Other None it is full
> flush 0 other
write_all 0 0 0
write_all 6 6 0
> write 6 code:4
> write 6 code:4
> write 6 3
> write 3 code:4
> write 3 2
> write 1 1
write_all 6 0 WriteZero None write zero
> write 6 0
write_all 10000 4097 WriteZero None write zero
> write 10000 code:4
> write 10000 4097
> write 5903 0
write_all 6 3 StorageFull Some(28) No space left on device (os error 28)
> write 6 3
> write 3 code:28
write_all 10000 5000 Other None it is full
> write 10000 5000
> write 5000 code:4
> write 5000 other
write 1048576 0 Interrupted Some(4) Interrupted system call (os error 4)
> write 1048576 code:4
write 1048576 0 Other None it is full
> write 1048576 other
write 1048576 65537 65537
> write 1048576 65537
flush 0 0 Interrupted Some(4) Interrupted system call (os error 4)
> flush 0 code:4
write 6 4 4
> write 6 4
write 1048576 1048576 1048576
> write 1048576 1048576
flush 0 0 0
> flush 0 0
write_all 1048576 1048576 0
> write 1048576 1048576
";

// Returns the result that a row gives to an inner call.
fn told_answer(answer: &str) -> io::Result<usize> {
    if let Some(code) = answer.strip_prefix("code:") {
        return Err(io::Error::from_raw_os_error(code.parse().unwrap_or(0)));
    }
    match answer.parse() {
        Ok(taken) => Ok(taken),
        Err(_) => Err(io::Error::other("it is full")),
    }
}

// A writer that returns what the rows give, and records its calls and the bytes that it takes.
#[derive(Drop)]
struct Recorder {
    rows: Lines<'static>,
    calls: String,
    taken: Vec<u8>,
}

impl Recorder {
    // Records a call and the bytes that are taken, and returns its result.
    fn answer(&mut self, name: &str, slice: &[u8]) -> io::Result<usize> {
        let row = self.rows.find(|row| row.starts_with('>')).unwrap_or("");
        let (_, answer) = row.rsplit_once(' ').unwrap_or(("", row));
        writeln!(self.calls, "> {name} {} {answer}", slice.len())?;
        let taken = told_answer(answer)?.min(slice.len());
        self.taken.extend_from_slice(&slice[..taken])?;
        Ok(taken)
    }
}

impl Write for Recorder {
    fn write(&mut self, slice: &[u8]) -> io::Result<usize> {
        let taken = self.answer("write", slice)?;
        Ok(taken.min(slice.len()))
    }

    fn flush(&mut self) -> io::Result<()> {
        self.answer("flush", &[])?;
        Ok(())
    }
}

// Makes a call, and returns its result.
fn called(writer: &mut HashedWrite<Recorder>, name: &str, slice: &[u8]) -> io::Result<usize> {
    match name {
        "write" => writer.write(slice),
        "flush" => {
            writer.flush()?;
            Ok(0)
        }
        _ => {
            writer.write_all(slice)?;
            Ok(0)
        }
    }
}

// Returns a result as a row has it.
fn printed(rt: &impl Abort, alloc: Global, answer: io::Result<usize>) -> String {
    match answer {
        Ok(taken) => format!(in alloc; "{taken}"),
        Err(error) => format!(in alloc; "{:?} {:?} {error}", error.kind(), error.raw_os_error()),
    }
    .expect(rt, "memory")
}

// Returns the columns of a row. An error in the last one has spaces.
fn columns<'a>(rt: &impl Abort, row: &'a str) -> (&'a str, &'a str, &'a str, &'a str) {
    let (first, rest) = row.split_once(' ').expect(rt, "a second column");
    let (second, rest) = rest.split_once(' ').expect(rt, "a third column");
    let (third, last) = rest.split_once(' ').expect(rt, "a last column");
    (first, second, third, last)
}

// Returns the rows of the inner calls.
fn inner_calls(rt: &impl Abort, alloc: Global) -> String {
    let mut calls = String::new(alloc);
    for row in CALLS.lines() {
        if row.starts_with('>') {
            writeln!(calls, "{row}").expect(rt, "memory");
        }
    }
    calls
}

// Makes the call of a row. Returns whether it has the row's result, and the hash is that of all bytes that were taken.
fn is_answered(
    rt: &impl Abort,
    alloc: Global,
    writer: &mut HashedWrite<Recorder>,
    message: &[u8],
    taken: &mut Vec<u8>,
    row: &str,
) -> bool {
    let (name, length, count, expected) = columns(rt, row);
    let length = length.parse().expect(rt, "a number");
    let slice = message.get(..length).expect(rt, "a slice");
    let answer = called(writer, name, slice);
    let count = count.parse().expect(rt, "a number");
    let front = slice.get(..count).expect(rt, "a slice");
    taken.extend_from_slice(front).expect(rt, "memory");
    let is_hashed = writer.hash() == compute_data_hash(taken.as_slice());
    is_hashed && printed(rt, alloc, answer).as_str() == expected
}

// Returns a writer that records what it gets.
fn recording(alloc: Global) -> HashedWrite<Recorder> {
    HashedWrite::new(Recorder {
        rows: CALLS.lines(),
        calls: String::new(alloc),
        taken: Vec::new(alloc),
    })
}

// Makes the calls in turn. Returns whether the inner writer was called as the rows say, and took the same bytes.
fn are_handed_on(rt: &impl Abort, alloc: Global, message: &[u8]) -> bool {
    let mut writer = recording(alloc);
    let mut taken = Vec::new(alloc);
    for row in CALLS.lines() {
        if !row.starts_with('>') {
            let is_right = is_answered(rt, alloc, &mut writer, message, &mut taken, row);
            assert!(rt; is_right, "{row}");
        }
    }
    let recorder = writer.into_inner();
    recorder.taken == taken && recorder.calls == inner_calls(rt, alloc)
}

#[test]
fn calls_are_handed_on_and_what_is_taken_is_hashed(rt: HostRuntime) {
    let mut message = Vec::from_elem(rt.alloc(), 0u8, 1 << 20).expect(&rt, "memory");
    Xoshiro256PlusPlus::seed_from_u64(14).fill_bytes(message.as_mut_slice());
    assert!(rt; are_handed_on(&rt, rt.alloc(), &message));
}

// The hash was computed without this code.
#[test]
fn drawn_bytes_are_hashed_and_handed_on(rt: HostRuntime) {
    let mut message = [0u8; 300];
    Xoshiro256PlusPlus::seed_from_u64(13).fill_bytes(&mut message);
    let hash = "bbd96a1fac984cb7e9dba7f6755195d59d9bb115e45cff0f96c3cd211560b0fc";
    let hash = DataHash::from_hex(hash).expect(&rt, "a hash");
    assert!(rt; compute_data_hash(&message) == hash);
    let mut writer = HashedWrite::new(Vec::new(rt.alloc()));
    for piece in message.chunks(10) {
        writer.write_all(piece).expect(&rt, "memory");
    }
    assert!(rt; writer.hash() == compute_data_hash(&message));
    assert!(rt; writer.into_inner().as_slice() == message.as_slice());
}

// A writer that takes at most three bytes a call and `room` bytes in all, and then fails.
#[derive(Drop)]
struct Narrow {
    room: usize,
    taken: Vec<u8>,
}

impl Narrow {
    fn new(alloc: Global, room: usize) -> Narrow {
        Narrow {
            room,
            taken: Vec::new(alloc),
        }
    }
}

impl Write for Narrow {
    fn write(&mut self, slice: &[u8]) -> io::Result<usize> {
        if self.room == 0 {
            return Err(io::Error::from(ErrorKind::StorageFull));
        }
        let len = slice.len().min(self.room).min(3);
        self.taken.extend_from_slice(&slice[..len])?;
        self.room -= len;
        Ok(len)
    }

    fn flush(&mut self) -> io::Result<()> {
        Ok(())
    }
}

// Returns whether a writer with some room takes a message as far as it can, and what it takes is hashed.
fn is_taken(alloc: Global, message: &[u8], room: usize) -> bool {
    let mut writer = HashedWrite::new(Narrow::new(alloc, room));
    let answer = writer.write_all(message).map_err(|error| error.kind());
    let (front, rest) = message.split_at(room.min(message.len()));
    let expected = if rest.is_empty() {
        Ok(())
    } else {
        Err(ErrorKind::StorageFull)
    };
    let is_hashed = writer.hash() == compute_data_hash(front);
    let Narrow { taken, .. } = writer.into_inner();
    answer == expected && is_hashed && taken.as_slice() == front
}

#[test]
fn what_a_narrow_writer_takes_is_hashed(rt: HostRuntime) {
    for (message, room) in [
        (b"abcdef".as_slice(), 3),
        (b"abcdef", 4),
        (&[7; 1025], 1025),
    ] {
        assert!(rt; is_taken(rt.alloc(), message, room), "{room}");
    }
}
