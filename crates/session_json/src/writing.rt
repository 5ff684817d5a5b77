//! Writes the JSON text of a session. It needs no tree of values, which would take several times the memory of the text, since a
//! session may know millions of hashes.

ghost use Rattle.std.specs.Prelude.{◌≡◌, ◌++◌, ◌∷◌, [], List, codes, map, IfOk, OnOk};
ghost use Rattle.serde_json.specs.Data.{array};
ghost use Rattle.serde_json.specs.View.{items_of};
ghost use Rattle.serde_json.specs.Written.{compact_text};
ghost use Rattle.level_nodes.specs.NodeJson.{number_json};
ghost use Rattle.xet_merkle.specs.SubtreeJson.{subtree_json};
ghost use Rattle.session_json.specs.SessionJson.{hash_json, run_json, session_json, AreKnownInOrder, IsTextOf};

use crate::pieces::{push_comma, push_number};
use crate::subtree_text::push_subtree;
use std::alloc::{AllocError, Global};
use upload_session::session::Session;
use xet_hash::data_hash::MerkleHash;
use xet_merkle::merkle_hash_subtree::MerkleHashSubtree;

// Writes a hash as an array of its four words.
fn push_hash(text: &mut Vec<u8>, hash: &MerkleHash) -> Result<(), AllocError>
    ensures { OnOk result (text.new.items ≡ text.old.items ++ compact_text (hash_json hash.now)) }
{
    let words = hash.words();
    text.push(b'[')?;
    let mut later = false;
    'words: for word in &words {
        push_comma(text, later)?;
        push_number(text, *word)?;
        later = true;
    }
    text.push(b']')?;
    Ok(())
}

// Writes hashes as an array.
fn push_hashes(text: &mut Vec<u8>, hashes: &[MerkleHash]) -> Result<(), AllocError>
    ensures { OnOk result (text.new.items
        ≡ text.old.items ++ compact_text (array (items_of (map hash_json hashes.now)))) }
{
    text.push(b'[')?;
    let mut later = false;
    'hashes: for hash in hashes {
        push_comma(text, later)?;
        push_hash(text, hash)?;
        later = true;
    }
    text.push(b']')?;
    Ok(())
}

// Writes a run as an object of its positions and its subtree.
#[tactic(auto, unfolding(json::specs::Print::escape_byte))]
fn push_run(
    text: &mut Vec<u8>,
    first: u64,
    end: u64,
    range: &MerkleHashSubtree,
) -> Result<(), AllocError>
    ensures { OnOk result (text.new.items ≡ text.old.items
        ++ compact_text (run_json (first, record { end = end; range = range.now }))) }
{
    text.extend_from_slice(b"{\"first\":")?;
    push_number(text, first)?;
    text.extend_from_slice(b",\"end\":")?;
    push_number(text, end)?;
    text.extend_from_slice(b",\"chunks\":")?;
    push_subtree(text, range)?;
    text.push(b'}')?;
    Ok(())
}

// Writes the runs of a session as an array, by rising position.
fn push_runs(text: &mut Vec<u8>, session: &Session) -> Result<(), AllocError>
    ensures { OnOk result (text.new.items ≡ text.old.items
        ++ compact_text (array (items_of (map run_json session.now.runs)))) }
{
    // The proof needs what this call promises, that the runs rise.
    session.num_runs();
    text.push(b'[')?;
    let (mut later, mut position) = (false, 0);
    'runs: while let Some((first, end, range)) = session.run_from(position) {
        push_comma(text, later)?;
        push_run(text, first, end, range)?;
        (later, position) = (true, end);
    }
    text.push(b']')?;
    Ok(())
}

/// Returns the compact JSON text of a session: its runs, and some hashes in the order in which they are given. Fails if an
/// allocation fails.
#[tactic(auto, unfolding(json::specs::Print::escape_byte))]
pub fn session_text(
    alloc: Global,
    session: &Session,
    hashes: &[MerkleHash],
) -> Result<Vec<u8>, AllocError>
    ensures { IfOk result (λ text. text.items ≡ compact_text (session_json session.now.runs hashes.now)) }
{
    let mut text = Vec::new(alloc);
    text.extend_from_slice(b"{\"runs\":")?;
    push_runs(&mut text, session)?;
    text.extend_from_slice(b",\"known_hashes\":")?;
    push_hashes(&mut text, hashes)?;
    text.push(b'}')?;
    Ok(text)
}

// Returns the known hashes of a session by rising order.
fn sorted_hashes(session: &Session) -> Result<Vec<MerkleHash>, AllocError>
    ensures { IfOk result (λ hashes. AreKnownInOrder session.now.kept hashes.items) }
{
    let mut hashes = session.known_hashes()?;
    hashes.sort_unstable();
    Ok(hashes)
}

/// Returns the compact JSON text of a session: its runs, by rising position, and its known hashes, by rising order, or no
/// hashes. Equal sessions have equal texts. Fails if an allocation fails.
pub fn write_session(
    alloc: Global,
    session: &Session,
    with_hashes: bool,
) -> Result<Vec<u8>, AllocError>
    ensures { IfOk result (λ text. IsTextOf session.now with_hashes text.items) }
{
    if !with_hashes {
        return session_text(alloc, session, &[]);
    }
    let hashes = sorted_hashes(session)?;
    session_text(alloc, session, &hashes)
}
