//! Sessions as JSON texts: those of `tests/vectors/session_json.json`, which the model makes. And texts of subtrees.

use crate::sessions::{nodes, to_number};
use session_json::fault::SessionTextFault;
use session_json::reading::read_session;
use session_json::reading_back::read_back;
use session_json::subtree_text::subtree_text;
use session_json::writing::{session_text, write_session};
use std::alloc::Global;
use std::process::Abort;
use std::vec::Vec;
use test_support::texts::three_fields;
use upload_session::session::{Session, SessionOf};
use xet_hash::data_hash::{DataHash, MerkleHash};

// Sessions, each a row of its puts, of the seeds of the hashes in the text, and of the text. A put has a position, and the seed
// of the hash and the size of each chunk. `-` is none.
const TEXTS: &str = "-|-|{\"runs\":[],\"known_hashes\":[]}
0 1:100|1|{\"runs\":[{\"first\":0,\"end\":1,\"chunks\":{\"at_end\":false,\"at_start\":false,\"levels\":[[1,0]],\"nodes\":[{\"hash\":\"cfc5d07f6f03c29bbf424132963fe08d19a37d5757aaf520bf08119f05cd56d6\",\"size\":100}]}}],\"known_hashes\":[[14971601782005023387,13781649495232077965,1847458086238483744,13765271635752736470]]}
7 1:100|1|{\"runs\":[{\"first\":7,\"end\":8,\"chunks\":{\"at_end\":false,\"at_start\":false,\"levels\":[[1,0]],\"nodes\":[{\"hash\":\"cfc5d07f6f03c29bbf424132963fe08d19a37d5757aaf520bf08119f05cd56d6\",\"size\":100}]}}],\"known_hashes\":[[14971601782005023387,13781649495232077965,1847458086238483744,13765271635752736470]]}
7 1:100;2 2:200,3:300|3,2,1|{\"runs\":[{\"first\":2,\"end\":4,\"chunks\":{\"at_end\":false,\"at_start\":false,\"levels\":[[2,0]],\"nodes\":[{\"hash\":\"c3e67584b5c4fc2a89837ec39e40f2c8a6bb0b2987ac94cd4b31e5fbdd210a72\",\"size\":200},{\"hash\":\"0d2beb91b9196929a5ddec9f6e306924ddf4a24268e3e59fd8464738d525af37\",\"size\":300}]}},{\"first\":7,\"end\":8,\"chunks\":{\"at_end\":false,\"at_start\":false,\"levels\":[[1,0]],\"nodes\":[{\"hash\":\"cfc5d07f6f03c29bbf424132963fe08d19a37d5757aaf520bf08119f05cd56d6\",\"size\":100}]}}],\"known_hashes\":[[949111157599856937,11951969155603786020,15993586582810781087,15584221869981937463],[14116099294885116970,9908902983784002248,12014208703938729165,5418364696612899442],[14971601782005023387,13781649495232077965,1847458086238483744,13765271635752736470]]}
0 2:200,3:300;3 1:100|3,2,1|{\"runs\":[{\"first\":0,\"end\":2,\"chunks\":{\"at_end\":false,\"at_start\":false,\"levels\":[[2,0]],\"nodes\":[{\"hash\":\"c3e67584b5c4fc2a89837ec39e40f2c8a6bb0b2987ac94cd4b31e5fbdd210a72\",\"size\":200},{\"hash\":\"0d2beb91b9196929a5ddec9f6e306924ddf4a24268e3e59fd8464738d525af37\",\"size\":300}]}},{\"first\":3,\"end\":4,\"chunks\":{\"at_end\":false,\"at_start\":false,\"levels\":[[1,0]],\"nodes\":[{\"hash\":\"cfc5d07f6f03c29bbf424132963fe08d19a37d5757aaf520bf08119f05cd56d6\",\"size\":100}]}}],\"known_hashes\":[[949111157599856937,11951969155603786020,15993586582810781087,15584221869981937463],[14116099294885116970,9908902983784002248,12014208703938729165,5418364696612899442],[14971601782005023387,13781649495232077965,1847458086238483744,13765271635752736470]]}
9007199254740993 1:100;1152921504606846979 2:200,3:300|3,2,1|{\"runs\":[{\"first\":9007199254740993,\"end\":9007199254740994,\"chunks\":{\"at_end\":false,\"at_start\":false,\"levels\":[[1,0]],\"nodes\":[{\"hash\":\"cfc5d07f6f03c29bbf424132963fe08d19a37d5757aaf520bf08119f05cd56d6\",\"size\":100}]}},{\"first\":1152921504606846979,\"end\":1152921504606846981,\"chunks\":{\"at_end\":false,\"at_start\":false,\"levels\":[[2,0]],\"nodes\":[{\"hash\":\"c3e67584b5c4fc2a89837ec39e40f2c8a6bb0b2987ac94cd4b31e5fbdd210a72\",\"size\":200},{\"hash\":\"0d2beb91b9196929a5ddec9f6e306924ddf4a24268e3e59fd8464738d525af37\",\"size\":300}]}}],\"known_hashes\":[[949111157599856937,11951969155603786020,15993586582810781087,15584221869981937463],[14116099294885116970,9908902983784002248,12014208703938729165,5418364696612899442],[14971601782005023387,13781649495232077965,1847458086238483744,13765271635752736470]]}";

// Returns a session after some puts.
fn session(rt: &impl Abort, alloc: Global, puts: &str) -> Session {
    let mut session = SessionOf::new(alloc);
    for put in puts.split(';') {
        if let Some((position, chunks)) = put.split_once(' ') {
            session
                .put(to_number(rt, position), &nodes(rt, alloc, chunks))
                .expect(rt, "a put");
        }
    }
    session
}

// Returns the hashes of some seeds.
fn hashes(rt: &impl Abort, alloc: Global, seeds: &str) -> Vec<MerkleHash> {
    let mut hashes = Vec::new(alloc);
    for seed in seeds.split(',') {
        if seed != "-" {
            hashes
                .push(DataHash::random_from_seed(to_number(rt, seed)))
                .expect(rt, "memory");
        }
    }
    hashes
}

#[test]
fn sessions_have_the_texts_of_the_model(rt: HostRuntime) {
    for row in TEXTS.lines() {
        let (puts, seeds, text) = three_fields(row, '|').expect(&rt, "three fields");
        let session = session(&rt, rt.alloc(), puts);
        let hashes = hashes(&rt, rt.alloc(), seeds);
        let written = session_text(rt.alloc(), &session, &hashes).expect(&rt, "memory");
        assert!(rt; written.as_slice() == text.as_bytes(), "{row}");
    }
}

#[test]
fn texts_are_written_again_as_they_were_read(rt: HostRuntime) {
    for row in TEXTS.lines() {
        let (_, _, text) = three_fields(row, '|').expect(&rt, "three fields");
        let session = read_session(rt.alloc(), text.as_bytes(), true).expect(&rt, "a session");
        let written = write_session(rt.alloc(), &session, true).expect(&rt, "memory");
        assert!(rt; written.as_slice() == text.as_bytes(), "{row}");
        let without = read_session(rt.alloc(), text.as_bytes(), false).expect(&rt, "a session");
        let all = write_session(rt.alloc(), &without, true).expect(&rt, "memory");
        let none = write_session(rt.alloc(), &session, false).expect(&rt, "memory");
        assert!(rt; all.as_slice() == none.as_slice(), "{row}");
    }
}

#[test]
fn texts_of_no_session_have_the_lowest_fault(rt: HostRuntime) {
    let empty = "{\"at_end\":false,\"at_start\":false,\"levels\":[[0,0]],\"nodes\":[]}";
    for (text, fault) in [
        (
            "{\"runs\":[],\"runs\":[],\"known_hashes\":[]}",
            SessionTextFault::Text,
        ),
        ("[]", SessionTextFault::Rule(1)),
        ("{\"runs\":[0]}", SessionTextFault::Rule(2)),
        (
            "{\"runs\":[0],\"known_hashes\":[0]}",
            SessionTextFault::Rule(3),
        ),
        (
            "{\"runs\":[{\"first\":2,\"end\":1,\"chunks\":0}],\"known_hashes\":[0]}",
            SessionTextFault::Rule(4),
        ),
        (
            "{\"runs\":[{\"first\":2,\"end\":1,\"chunks\":0}],\"known_hashes\":[]}",
            SessionTextFault::Subtree(1),
        ),
    ] {
        assert!(rt;
            read_session(rt.alloc(), text.as_bytes(), true).err() == Some(fault),
            "{text}"
        );
    }
    let mut text = Vec::new(rt.alloc());
    for part in [
        "{\"runs\":[{\"first\":1,\"end\":1,\"chunks\":",
        empty,
        "}],\"known_hashes\":[]}",
    ] {
        text.extend_from_slice(part.as_bytes())
            .expect(&rt, "memory");
    }
    assert!(rt; read_session(rt.alloc(), &text, true).err() == Some(SessionTextFault::Rule(6)));
}

// Texts of subtrees as `subtree_text` writes them.
const WRITTEN: &str =
    "{\"at_end\":false,\"at_start\":false,\"levels\":[[1,0]],\"nodes\":[{\"hash\":\"cfc5d07f6f03c29bbf424132963fe08d19a37d5757aaf520bf08119f05cd56d6\",\"size\":100}]}
{\"at_end\":false,\"at_start\":false,\"levels\":[[2,0]],\"nodes\":[{\"hash\":\"c3e67584b5c4fc2a89837ec39e40f2c8a6bb0b2987ac94cd4b31e5fbdd210a72\",\"size\":200},{\"hash\":\"0d2beb91b9196929a5ddec9f6e306924ddf4a24268e3e59fd8464738d525af37\",\"size\":300}]}
{\"at_end\":false,\"at_start\":false,\"levels\":[[0,0]],\"nodes\":[]}
{\"at_end\":true,\"at_start\":true,\"levels\":[[1,0]],\"nodes\":[{\"hash\":\"cfc5d07f6f03c29bbf424132963fe08d19a37d5757aaf520bf08119f05cd56d6\",\"size\":100}]}
{\"at_end\":true,\"at_start\":true,\"levels\":[[0,0]],\"nodes\":[]}
{\"at_end\":false,\"at_start\":false,\"levels\":[[1,0]],\"nodes\":[{\"hash\":\"cfc5d07f6f03c29bbf424132963fe08d19a37d5757aaf520bf08119f05cd56d6\",\"size\":18446744073709551615}]}
{\"at_end\":false,\"at_start\":false,\"levels\":[[1,0]],\"nodes\":[{\"hash\":\"cfc5d07f6f03c29bbf424132963fe08d19a37d5757aaf520bf08119f05cd56d6\",\"size\":0}]}";

// Texts that say the same in other words, or say no subtree.
const OTHERS: &str =
    "{\"at_end\":false,\"at_start\":false,\"levels\":[[1,0]],\"nodes\":[{\"hash\":\"cfc5d07f6f03c29bbf424132963fe08d19a37d5757aaf520bf08119f05cd56d6\",\"size\":100}]} 
{\"at_end\":false,\"at_start\":false,\"levels\":[[1,0]],\"nodes\":[{\"hash\":\"cfc5d07f6f03c29bbf424132963fe08d19a37d5757aaf520bf08119f05cd56d6\",\"size\":100}]}}
{\"at_end\":false,\"at_start\":false,\"levels\":[[1,0]],\"nodes\":[{\"hash\":\"cfc5d07f6f03c29bbf424132963fe08d19a37d5757aaf520bf08119f05cd56d6\",\"size\": 100}]}
{\"at_start\":false,\"at_end\":false,\"levels\":[[1,0]],\"nodes\":[{\"hash\":\"cfc5d07f6f03c29bbf424132963fe08d19a37d5757aaf520bf08119f05cd56d6\",\"size\":100}]}
{\"at_end\":false,\"at_start\":false,\"levels\":[[1,0]],\"nodes\":[{\"hash\":\"CFC5D07F6F03C29BBF424132963FE08D19A37D5757AAF520BF08119F05CD56D6\",\"size\":100}]}
{\"at_end\":false,\"at_start\":false,\"levels\":[[1,0]],\"nodes\":[{\"hash\":\"cfc5d07f6f03c29bbf424132963fe08d19a37d5757aaf520bf08119f05cd56d\",\"size\":100}]}
{\"at_end\":false,\"at_start\":false,\"levels\":[[1,0]],\"nodes\":[{\"hash\":\"cfc5d07f6f03c29bbf424132963fe08d19a37d5757aaf520bf08119f05cd56dg\",\"size\":100}]}
{\"at_end\":false,\"at_start\":false,\"levels\":[[1,0]],\"nodes\":[{\"hash\":\"cfc5d07f6f03c29bbf424132963fe08d19a37d5757aaf520bf08119f05cd56d6\",\"size\":0100}]}
{\"at_end\":false,\"at_start\":false,\"levels\":[[1,0]],\"nodes\":[{\"hash\":\"cfc5d07f6f03c29bbf424132963fe08d19a37d5757aaf520bf08119f05cd56d6\",\"size\":18446744073709551616}]}
{\"at_end\":false,\"at_start\":false,\"levels\":[[1,0]],\"nodes\":[{\"hash\":\"cfc5d07f6f03c29bbf424132963fe08d19a37d5757aaf520bf08119f05cd56d6\",\"size\":}]}
{\"at_end\":false,\"at_start\":false,\"levels\":[[1,0]],\"nodes\":[{\"hash\":\"cfc5d07f6f03c29bbf424132963fe08d19a37d5757aaf520bf08119f05cd56d6\",\"size\":1e2}]}
{\"at_end\":null,\"at_start\":false,\"levels\":[[1,0]],\"nodes\":[{\"hash\":\"cfc5d07f6f03c29bbf424132963fe08d19a37d5757aaf520bf08119f05cd56d6\",\"size\":100}]}
{\"at_end\":false,\"at_start\":false,\"levels\":[],\"nodes\":[{\"hash\":\"cfc5d07f6f03c29bbf424132963fe08d19a37d5757aaf520bf08119f05cd56d6\",\"size\":100}]}
{\"at_end\":false,\"at_start\":false,\"levels\":[[1]],\"nodes\":[{\"hash\":\"cfc5d07f6f03c29bbf424132963fe08d19a37d5757aaf520bf08119f05cd56d6\",\"size\":100}]}
{\"at_end\":false,\"at_start\":false,\"levels\":[[1,0],],\"nodes\":[{\"hash\":\"cfc5d07f6f03c29bbf424132963fe08d19a37d5757aaf520bf08119f05cd56d6\",\"size\":100}]}
{\"at_end\":true,\"at_start\":false,\"levels\":[[0,1]],\"nodes\":[{\"hash\":\"cfc5d07f6f03c29bbf424132963fe08d19a37d5757aaf520bf08119f05cd56d6\",\"size\":100}]}
{\"at_end\":false,\"at_start\":false,\"levels\":[[2,0]],\"nodes\":[{\"hash\":\"cfc5d07f6f03c29bbf424132963fe08d19a37d5757aaf520bf08119f05cd56d6\",\"size\":100}]}
{\"at_end\":false,\"at_start\":false,\"levels\":[[18446744073709551616,0]],\"nodes\":[{\"hash\":\"cfc5d07f6f03c29bbf424132963fe08d19a37d5757aaf520bf08119f05cd56d6\",\"size\":100}]}
{\"at_end\":false,\"at_start\":false,\"levels\":[[1,0]],\"nodes\":[]}
{\"at_end\":false,\"at_start\":false,\"levels\":[[1,0]],\"nodes\":[{\"hash\":\"cfc5d07f6f03c29bbf424132963fe08d19a37d5757aaf520bf08119f05cd56d6\",\"size\":100},]}
{\"at_end\":false,\"at_start\":false,\"levels\":[[1,0]],\"nodes\":[{\"size\":100,\"hash\":\"cfc5d07f6f03c29bbf424132963fe08d19a37d5757aaf520bf08119f05cd56d6\"}]}
{\"at_end\":false,\"at_start\":false,\"levels\":[[1,0]],\"nodes\":[{\"hash\":\"cfc5d07f6f03c29bbf424132963fe08d19a37d5757aaf520bf08119f05cd56d6\",\"size\":100}]
{\"at_end\":false,\"at_start\":false,\"levels\":[[1,0]],\"nodes\":[{\"hash\":\"cf
{
";

#[test]
fn subtrees_are_read_back_from_what_was_written_alone(rt: HostRuntime) {
    for text in WRITTEN.lines() {
        let subtree = read_back(rt.alloc(), text.as_bytes())
            .expect(&rt, "memory")
            .expect(&rt, "a subtree");
        let again = subtree_text(rt.alloc(), &subtree).expect(&rt, "memory");
        assert!(rt; again.as_slice() == text.as_bytes(), "{text}");
    }
    for text in OTHERS.lines() {
        assert!(rt;
            read_back(rt.alloc(), text.as_bytes())
                .expect(&rt, "memory")
                .is_none(),
            "{text}"
        );
    }
}
