//! Laws of the saved form of sessions. Each function does nothing: its contract is the law.

ghost use Rattle.std.specs.Prelude.{◌≡◌, ℕ, Bool, true, List};
ghost use Rattle.std.specs.declared.alloc.Global.{Global};
ghost use Rattle.serde_json.specs.Data.{Data};
ghost use Rattle.subtree_levels.specs.Subtree.{Subtree};
ghost use Rattle.upload_session.specs.Hashes.{Hash};
ghost use Rattle.upload_session.specs.Session.{Parts, PlacedRun};
ghost use Rattle.upload_session.specs.declared.kept_hashes.SeenHashes.{SeenHashes};
ghost use Rattle.session_json.specs.Reading.{Reads, SaysSession};
ghost use Rattle.session_json.specs.SessionJson.{IsSameSession, IsSound, IsTextOf};

use xet_hash::laws::{hex_text_is_lowercase_digits, hex_text_tells_hashes_apart};
use xet_merkle::laws::json_says_one_subtree;

/// A JSON value says at most one list of runs and one list of known hashes. So a text says one session.
pub fn json_says_one_session()
    ensures values { (json : Data) (runs others : List (PlacedRun Subtree)) (known more : List Hash) →
        Reads json runs known → Reads json others more → (runs ≡ others) × (known ≡ more) }
    ensures texts { (text : List ℕ) (keep_hashes : Bool) (a b : Parts Subtree (SeenHashes Global)) →
        SaysSession text keep_hashes a → SaysSession text keep_hashes b → IsSameSession a b }
{
    json_says_one_subtree();
}

/// Sessions with the same runs and the same known hashes have the same text.
pub fn equal_sessions_are_written_equally()
    ensures { (a b : Parts Subtree (SeenHashes Global)) (with_hashes : Bool) (first second : List ℕ) →
        IsSameSession a b → IsTextOf a with_hashes first → IsTextOf b with_hashes second → first ≡ second }
{}

/// What is written of a session, with its hashes, reads as the same session.
pub fn written_sessions_read_the_same()
    ensures { (session : Parts Subtree (SeenHashes Global)) (text : List ℕ) →
        IsSound session → IsTextOf session true text → SaysSession text true session }
{
    hex_text_is_lowercase_digits();
    hex_text_tells_hashes_apart();
}
