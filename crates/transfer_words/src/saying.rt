ghost use Rattle.std.specs.Prelude.{◌≡◌, [], ◌∷◌, ◌++◌, Ok, IfOk, OnOk, OnErr};
ghost use Rattle.transfer_chunk.specs.Reading.{chunk_of};
ghost use Rattle.transfer_words.specs.Saying.{outs_of, says};
ghost use Rattle.transfer_words.specs.Spoken.{HasSmallWindow, spoken, text_in};
ghost use Rattle.transfer_words.specs.Word.{lent_word};

use crate::word::WordRef;
use bytes::Bytes;
use rpc_handlers::{Out, Outs};
use std::alloc::{AllocError, Global};

/// The bytes of the chunk that says a word in a session. They are read as that chunk again.
pub fn text_of(alloc: Global, session: u32, word: WordRef<'_>) -> Result<Bytes, AllocError>
    requires { HasSmallWindow (lent_word word) }
    ensures text { IfOk result (λ text. text ≡ text_in session (lent_word word.entry)) }
    ensures again { chunk_of (text_in session (lent_word word.entry)) ≡ Ok (spoken session (lent_word word.entry)) }
{
    let chunk = word.chunk(session);
    let mut text = Vec::new(alloc);
    chunk.write(&mut text)?;
    Bytes::copy_from_slice(alloc, text.as_slice())
}

/// Says a word in a session, after what is said already. After an `Err` nothing more is said.
pub fn say(
    alloc: Global,
    outs: &mut Outs,
    session: u32,
    word: WordRef<'_>,
) -> Result<(), AllocError>
    requires { HasSmallWindow (lent_word word) }
    ensures ok { OnOk result (outs.new ≡ outs.old ++ outs_of session (says (lent_word word.entry) ∷ [])) }
    ensures err { OnErr result (outs.new ≡ outs.old) }
{
    outs.push(Out::Say(text_of(alloc, session, word)?))
}
