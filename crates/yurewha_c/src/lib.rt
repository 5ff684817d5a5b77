//! The library for C: proved exports of the crates below it. `bindings/check_exports` makes their declarations and comments
//! in `bindings/include/yurewha.h` of their signatures and comments here.
//!
//! A slice is passed as a pointer and a length, a reference as a pointer, and a `Global` as nothing. No export has a
//! precondition: each wrong argument has a [`status`]. Whatever owns memory is passed as a [`subtree_handle`], a
//! [`session_handle`], a [`hash_tree_handle`], an [`opened_range_handle`], a [`part_handle`], a [`reader_handle`], a
//! [`hash_index_handle`] or a [`file_hasher_handle`].
//!
//! The comment of an export lists its statuses, and ends with the version that first had it. It doesn't repeat the header's
//! rules for all calls. A call that doesn't return `DONE` changes and writes nothing, except for the lengths that it writes
//! with `ROOM`. A call that returns no status can't fail. A call leaves a handle as it was unless its comment says
//! otherwise, and frees what a handle owned to which it writes another value. It writes a text to the beginning of its room.
#![tactic(auto)]

mod chunker;
mod chunks;
mod data_hashes;
mod file_hasher;
mod file_hasher_handle;
mod hash;
mod hash_index;
mod hash_index_handle;
mod hash_text;
mod hash_tree;
mod hash_tree_handle;
mod hasher;
mod kept_file;
mod kept_session;
mod opened_range;
mod opened_range_handle;
mod part;
mod part_handle;
mod parts;
mod proof_bytes;
mod proof_check;
mod proof_lists;
mod proof_opening;
mod proof_text;
mod reader;
mod reader_handle;
mod roots;
mod session;
mod session_handle;
mod session_joining;
mod session_runs;
mod session_saving;
mod session_state;
mod session_text;
mod status;
mod status_text;
mod subtree;
mod subtree_flat;
mod subtree_handle;
mod subtree_merging;
mod subtree_text;
mod text;
mod version;
