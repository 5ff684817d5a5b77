//! Reads back the JSON text of a subtree that [`subtree_text`] wrote, without a tree of values.

ghost use Rattle.std.specs.Prelude.{IfOk, IfSome, []};
ghost use Rattle.std.specs.List.{AllByRecursion};
ghost use Rattle.serde_json.specs.Data.{Data};
ghost use Rattle.json_text.specs.JsonText.{IsJsonText};
ghost use Rattle.xet_hash.specs.Hash.{IsHash};
ghost use Rattle.level_nodes.specs.FlatLevels.{flat_nodes};
ghost use Rattle.subtree_levels.specs.WellFormed.{IsWellFormed};
ghost use Rattle.xet_merkle.specs.JsonRules.{Reads};

use crate::subtree_text::subtree_text;
use std::alloc::{AllocError, Global};
use xet_hash::data_hash::DataHash;
use xet_hash::laws::{hex_text_is_lowercase_digits, hex_text_tells_hashes_apart};
use xet_merkle::merkle_hash_subtree::MerkleHashSubtree;
use xet_roots::aggregated_hashes::Node;
use xet_roots::error::CoreError;

// The least that the text of a node takes, in bytes.
const LEAST_PER_NODE: usize = 85;

// What is left of a text.
#[derive(Clone, Copy)]
struct Rest<'t> {
    text: &'t [u8],
}

impl Rest<'_> {
    // Reads these bytes, if the rest begins with them.
    fn bytes(&mut self, expected: &[u8]) -> Option<()> {
        self.text = self.text.strip_prefix(expected)?;
        Some(())
    }

    // Reads a truth value.
    fn truth(&mut self) -> Option<bool> {
        match self.bytes(b"true") {
            Some(()) => Some(true),
            None => {
                self.bytes(b"false")?;
                Some(false)
            }
        }
    }

    // Reads the digits of a number. It is 0 if there are none.
    fn number(&mut self) -> Option<u64> {
        let mut number = 0u64;
        'digits: for _ in 0..self.text.len() {
            let [digit @ b'0'..=b'9', rest @ ..] = self.text else {
                break 'digits;
            };
            number = number.checked_mul(10)?.checked_add((*digit - b'0') as u64)?;
            self.text = rest;
        }
        Some(number)
    }

    // Reads a hash.
    fn hash(&mut self) -> Option<DataHash>
        ensures { IfSome result IsHash }
    {
        let (digits, rest) = self.text.split_at_checked(64)?;
        self.text = rest;
        DataHash::from_hex_digits(digits).ok()
    }

    // Reads the numbers of left and right nodes of a level.
    fn count(&mut self) -> Option<(usize, usize)> {
        self.bytes(b"[")?;
        let left = self.number()?;
        self.bytes(b",")?;
        let right = self.number()?;
        self.bytes(b"]")?;
        Some((usize::try_from(left).ok()?, usize::try_from(right).ok()?))
    }

    // Reads the counts of all levels, to the end of their array.
    fn counts(&mut self, alloc: Global) -> Result<Option<Vec<(usize, usize)>>, AllocError> {
        let mut counts = Vec::new(alloc);
        'levels: for _ in 0..self.text.len() {
            let Some(count) = self.count() else {
                return Ok(None);
            };
            counts.push(count)?;
            if self.bytes(b",").is_none() {
                break 'levels;
            }
        }
        if self.bytes(b"]").is_none() {
            return Ok(None);
        }
        Ok(Some(counts))
    }

    // Reads a node.
    fn node(&mut self) -> Option<Node>
        ensures { IfSome result (λ node. IsHash node.0) }
    {
        self.bytes(b"{\"hash\":\"")?;
        let hash = self.hash()?;
        self.bytes(b"\",\"size\":")?;
        let size = self.number()?;
        self.bytes(b"}")?;
        Some((hash, size))
    }

    // Reads nodes to the end of their array.
    fn nodes(&mut self, alloc: Global) -> Result<Option<Vec<Node>>, AllocError>
        ensures { IfOk result (λ read. IfSome read (λ nodes. AllByRecursion (λ node. IsHash node.0) nodes.items)) }
    {
        let most = self.text.len() / LEAST_PER_NODE;
        let mut nodes = Vec::with_capacity(alloc, most)?;
        if self.bytes(b"]").is_some() {
            return Ok(Some(nodes));
        }
        'nodes: for _ in 0..most {
            let Some(node) = self.node() else {
                return Ok(None);
            };
            nodes.push(node)?;
            if self.bytes(b",").is_none() {
                break 'nodes;
            }
        }
        if self.bytes(b"]").is_none() {
            return Ok(None);
        }
        Ok(Some(nodes))
    }

    // Reads the marks at the end and at the start, and what stands around them.
    fn marks(&mut self) -> Option<(bool, bool)> {
        self.bytes(b"{\"at_end\":")?;
        let at_end = self.truth()?;
        self.bytes(b",\"at_start\":")?;
        let at_start = self.truth()?;
        self.bytes(b",\"levels\":[")?;
        Some((at_end, at_start))
    }

    // Reads a subtree from a text that may be the one of a subtree.
    fn subtree(&mut self, alloc: Global) -> Result<Option<MerkleHashSubtree>, AllocError>
        ensures well_formed { IfOk result (λ read. IfSome read IsWellFormed) }
        ensures hashes { IfOk result (λ read. IfSome read (λ subtree.
            AllByRecursion (λ node. IsHash node.0) (flat_nodes subtree.levels []))) }
    {
        let Some((at_end, at_start)) = self.marks() else {
            return Ok(None);
        };
        let Some(counts) = self.counts(alloc)? else {
            return Ok(None);
        };
        if self.bytes(b",\"nodes\":[").is_none() {
            return Ok(None);
        }
        let Some(nodes) = self.nodes(alloc)? else {
            return Ok(None);
        };
        match MerkleHashSubtree::from_flat(alloc, at_start, counts, nodes, at_end) {
            Ok(subtree) => Ok(Some(subtree)),
            Err(CoreError::OutOfMemory) => Err(AllocError),
            Err(_) => Ok(None),
        }
    }
}

/// Returns the subtree whose [`subtree_text`] the text is, byte for byte. Returns `None` for each other text, also if it
/// says a subtree in other words. Fails if an allocation fails.
///
/// Nothing that was read needs to be trusted, because the subtree is written again and compared with the text.
pub fn read_back(alloc: Global, text: &[u8]) -> Result<Option<MerkleHashSubtree>, AllocError>
    ensures { IfOk result (λ read_back. IfSome read_back (λ subtree.
        (json : Data) × IsJsonText text.now json × Reads json subtree)) }
{
    let Some(subtree) = Rest { text }.subtree(alloc)? else {
        return Ok(None);
    };
    let again = subtree_text(alloc, &subtree)?;
    if again.as_slice() != text {
        return Ok(None);
    }
    // Laws of hex texts: the JSON value of a subtree says it.
    hex_text_is_lowercase_digits();
    hex_text_tells_hashes_apart();
    Ok(Some(subtree))
}
