//! The session that a handle owns.

use upload_session::session::Session;

// A session over subtrees, under a name without parameters.
#[derive(Drop)]
pub(crate) struct KeptSession {
    pub(crate) session: Session,
    // Whether the session keeps the hashes of its chunks. If it doesn't, it knows none between two calls.
    pub(crate) keeps_hashes: bool,
}
