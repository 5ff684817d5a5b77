//! The JSON values of 300 random subtrees, changed at random places, and the lowest rule that each of them breaks. The
//! rules were computed without this code.

use super::written;
use rand_core::{Rng, SeedableRng};
use rand_xoshiro::Xoshiro256PlusPlus;
use serde_json::Value;
use std::alloc::Global;
use std::fmt::Write;
use std::process::Abort;
use test_support::{MARKS, numbered_list, with_cut};
use xet_merkle::CoreError;
use xet_merkle::aggregated_hashes::Node;
use xet_merkle::merkle_hash_subtree::MerkleHashSubtree;

// Replacements in a text. The first four don't change what it says.
const SPELLINGS: [(&str, &str); 15] = [
    ("c", "C"),
    ("\"hash\"", "\"h\\u0061sh\""),
    ("\"at_end\"", "\"more\":[1],\"at_end\""),
    ("\"size\":", "\"size\":7,\"size\":"),
    ("\"at_start\"", "\"start\""),
    ("true", "null"),
    ("\"size\":", "\"size\":-"),
    ("\"hash\":\"", "\"hash\":\"0"),
    ("},{", "},[],{"),
    ("},", ".0},"),
    ("},", "e0},"),
    ("[[", "[[0,"),
    ("],[", "e0],["),
    (",0]", ",18446744073709551616]"),
    ("],\"nodes\"", "],\"nodes\":{},\"leaves\""),
];

// What the JSON value of a subtree says.
#[derive(Drop)]
struct Parts {
    at_start: bool,
    at_end: bool,
    counts: Vec<(usize, usize)>,
    nodes: Vec<Node>,
}

// Returns a random place in a list of this length.
fn place(generator: &mut Xoshiro256PlusPlus, len: usize) -> usize {
    (generator.next_u64() % len.max(1) as u64) as usize
}

impl Parts {
    fn of(rt: &impl Abort, alloc: Global, subtree: &MerkleHashSubtree) -> Parts {
        let mut counts = Vec::new(alloc);
        let mut nodes = Vec::new(alloc);
        for level in 0..subtree.num_levels() {
            let (left, right) = (subtree.left(level), subtree.right(level));
            counts.push((left.len(), right.len())).expect(rt, "memory");
            nodes.extend_from_slice(left).expect(rt, "memory");
        }
        for level in (0..subtree.num_levels()).rev() {
            nodes
                .extend_from_slice(subtree.right(level))
                .expect(rt, "memory");
        }
        Parts {
            at_start: subtree.at_start(),
            at_end: subtree.at_end(),
            counts,
            nodes,
        }
    }

    // Adds one more left node to a level: a copy of the node at a place.
    fn add_node(&mut self, rt: &impl Abort, level: usize, place: usize) {
        if let Some(count) = self.counts.get_mut(level)
            && let Some(node) = self.nodes.get(place)
        {
            count.0 = count.0.saturating_add(1);
            let node = *node;
            self.nodes.insert(place, node).expect(rt, "memory");
        }
    }

    // Removes the node at a place from the left nodes of a level.
    fn remove_node(&mut self, level: usize, place: usize) {
        if let Some(count) = self.counts.get_mut(level)
            && count.0 > 0
            && place < self.nodes.len()
        {
            count.0 -= 1;
            self.nodes.remove(place);
        }
    }

    // Makes the last left node of a level a right one.
    fn move_node(&mut self, level: usize) {
        if let Some(count) = self.counts.get_mut(level)
            && count.0 > 0
        {
            *count = (count.0 - 1, count.1.saturating_add(1));
        }
    }

    // Changes something at a random place.
    fn change(&mut self, rt: &impl Abort, generator: &mut Xoshiro256PlusPlus) {
        let level = place(generator, self.counts.len());
        let place = place(generator, self.nodes.len());
        match generator.next_u64() % 10 {
            0 => self.at_start = !self.at_start,
            1 => self.at_end = !self.at_end,
            2 => self.counts.push((0, 0)).expect(rt, "memory"),
            3 => {
                self.counts.pop();
            }
            4 => {
                if let Some(count) = self.counts.get_mut(level) {
                    count.0 = count.0.saturating_add(1);
                }
            }
            5 => self.move_node(level),
            6 => self.add_node(rt, level, place),
            7 => self.remove_node(level, place),
            8 => {
                if let Some(node) = self.nodes.get_mut(place) {
                    node.1 = u64::MAX;
                }
            }
            _ => {
                if let Some(node) = self.nodes.get_mut(place) {
                    node.0 = with_cut(node.0, true);
                }
            }
        }
    }

    fn text(&self, rt: &impl Abort, alloc: Global) -> String {
        let mut text = format!(in alloc;
            "{{\"at_end\":{},\"at_start\":{},\"levels\":[",
            self.at_end, self.at_start
        )
        .expect(rt, "memory");
        let mut comma = "";
        for (left, right) in &self.counts {
            write!(text, "{comma}[{left},{right}]").expect(rt, "memory");
            comma = ",";
        }
        write!(text, "],\"nodes\":[").expect(rt, "memory");
        comma = "";
        for (hash, size) in &self.nodes {
            write!(text, "{comma}{{\"hash\":\"{hash}\",\"size\":{size}}}").expect(rt, "memory");
            comma = ",";
        }
        write!(text, "]}}").expect(rt, "memory");
        text
    }
}

// Returns what the JSON value of the random subtree of a number says, with up to two changes.
fn drawn_parts(
    rt: &impl Abort,
    generator: &mut Xoshiro256PlusPlus,
    alloc: Global,
    number: u64,
) -> Parts {
    let (at_start, at_end) = MARKS[(generator.next_u64() % 4) as usize];
    let chunks = numbered_list(alloc, number).expect(rt, "memory");
    let subtree = MerkleHashSubtree::from_chunks(alloc, at_start, &chunks, at_end);
    let mut parts = Parts::of(rt, alloc, &subtree.expect(rt, "a subtree"));
    for _ in 0..generator.next_u64() % 3 {
        parts.change(rt, generator);
    }
    parts
}

// Returns the text of a number, and how it should print.
fn drawn_texts(rt: &impl Abort, alloc: Global, number: u64) -> (String, String) {
    let mut generator = Xoshiro256PlusPlus::seed_from_u64(number.saturating_add(2000));
    let printed = drawn_parts(rt, &mut generator, alloc, number).text(rt, alloc);
    let text = match SPELLINGS.get((generator.next_u64() % 24) as usize) {
        Some((from, to)) => printed.replace(alloc, *from, to).expect(rt, "memory"),
        None => printed.clone().expect(rt, "memory"),
    };
    (text, printed)
}

// Returns the lowest rule that a text breaks, or 0 if reading it gives the subtree that prints as given.
fn broken_rule(rt: &impl Abort, alloc: Global, text: &str, printed: &str) -> Option<u8> {
    let value = Value::from_str(alloc, text).expect(rt, "a JSON value");
    match MerkleHashSubtree::from_json(alloc, &value) {
        Ok(subtree) if written(rt, alloc, &subtree).as_str() == printed => Some(0),
        Err(CoreError::InvalidJson(rule)) => Some(rule),
        _ => None,
    }
}

// Returns whether the text of a number breaks a rule.
fn breaks(rt: &impl Abort, alloc: Global, number: u64, rule: &str) -> bool {
    let (text, printed) = drawn_texts(rt, alloc, number);
    let rule = rule.parse().expect(rt, "a number");
    broken_rule(rt, alloc, &text, &printed) == Some(rule)
}

#[test]
fn changed_values_break_the_rules_that_they_should(rt: HostRuntime) {
    for (number, rule) in RULES.split_whitespace().enumerate() {
        assert!(rt; breaks(&rt, rt.alloc(), number as u64, rule), "{number}");
    }
    assert!(rt; RULES.split_whitespace().count() == 300);
}

// The expected rules, from number 0 on. 0 means that no rule is broken.
const RULES: &str = "0 6 2 2 0 5 5 3 6 4 2 4 3 3 6 0 11 6 0 0 3 2 4 3 8
0 4 0 3 8 8 0 3 6 3 0 3 4 0 2 2 5 8 4 6 0 3 6 3 2
0 0 0 0 3 0 3 0 0 2 2 0 3 0 9 0 3 0 8 9 0 0 0 0 8
11 3 5 7 3 11 0 7 2 11 7 6 3 12 6 4 4 4 0 0 0 8 4 4 3
4 2 0 6 3 3 8 4 7 2 0 6 3 2 3 3 5 6 9 3 3 3 0 11 9
0 0 0 0 4 0 9 5 4 0 0 4 6 3 4 3 3 12 4 0 10 0 3 12 12
10 3 0 3 3 4 5 8 6 3 6 0 3 6 6 0 0 3 2 0 5 0 0 3 4
7 3 0 11 0 11 8 4 6 3 10 6 7 3 0 3 3 0 4 0 0 7 3 5 13
3 3 7 4 2 0 2 3 7 0 4 6 0 8 3 2 3 0 0 6 7 3 0 4 3
9 0 3 3 3 6 0 0 5 0 4 6 4 3 4 5 3 0 2 4 4 0 6 0 0
0 6 2 6 4 2 0 0 0 6 6 4 0 8 3 3 2 6 0 7 4 0 0 0 3
6 13 13 8 13 2 9 0 2 4 2 0 0 0 7 0 3 7 0 4 0 3 0 0 13
";
