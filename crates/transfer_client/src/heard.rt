ghost use Rattle.std.specs.Prelude.{◌≡◌, option_map};
ghost use Rattle.transfer_client.specs.Polling.{heard_word};
ghost use Rattle.transfer_words.specs.Word.{lent_word};

use transfer_chunk::ChunkRef;
use transfer_words::WordRef;

/// What a message says in a session. It says nothing where it is malformed, is of another session or of none, or has a
/// type that no chunk has.
pub fn heard_word(session: u32, text: &[u8]) -> Option<WordRef<'_>>
    ensures { option_map lent_word result ≡ heard_word session text.now }
{
    let Ok(chunk) = ChunkRef::read(text) else {
        return None;
    };
    if chunk.session != Some(session) {
        return None;
    }
    WordRef::of(&chunk)
}
