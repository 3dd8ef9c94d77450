//! The words of a key stream that an id is.

ghost use Rattle.std.specs.Prelude.{◌≡◌, ◌++◌};
ghost use Rattle.ice_ids.specs.Drawing.{two_words, word_bytes};
ghost use Rattle.kept_ids.specs.Kept.{behind_id, behind_two};

use ice_ids::{two_words, word_bytes};
use rand_chacha::ChaCha20Rng;

/// The bytes of an object id, of the four words that a draw takes.
#[tactic(auto, unfolding(ice_ids::specs::Drawing::word_bytes))]
pub(crate) fn object_id(stream: &mut ChaCha20Rng) -> [u8; 12]
    ensures bytes { result ≡ two_words stream.old ++ word_bytes (behind_two stream.old) }
    ensures after { stream.new ≡ behind_id stream.old }
{
    let mut bytes = [0; 12];
    bytes[..8].copy_from_slice(&two_words(stream));
    bytes[8..].copy_from_slice(&word_bytes(stream));
    word_bytes(stream);
    bytes
}

/// The bytes of a node id, of the four words that a draw takes.
pub(crate) fn node_id(stream: &mut ChaCha20Rng) -> [u8; 8]
    ensures bytes { result ≡ two_words stream.old }
    ensures after { stream.new ≡ behind_id stream.old }
{
    let bytes = two_words(stream);
    two_words(stream);
    bytes
}
