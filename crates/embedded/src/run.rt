// A text run to its replies.
ghost use Rattle.std.specs.Prelude.{◌≡◌, IfOk, length};
ghost use Rattle.embedded.specs.Runs.{Replies, RepliesAreOne, Measured, Run, placed, places_after};

use crate::failure::Failure;
use dialogue::serve::serve;
use protocol::text_session::TextSession;
use std::alloc::Global;
use std::io;

// The replies to a text, in a session that has no job at first.
fn replies_to(heap: Global, text: &[u8]) -> io::Result<Vec<u8>>
    ensures { IfOk result (λ bytes. Replies text.now bytes.items) }
{
    let mut session = TextSession::new(heap)?;
    let mut replies = Vec::new(heap);
    serve(text, &mut replies, &mut session)?;
    Ok(replies)
}

// Puts all the bytes into the first places, or none where there are more bytes than places.
fn put(bytes: &[u8], places: &mut [u8]) -> Result<usize, Failure>
    ensures result { result ≡ placed bytes.now (length places.old) }
    ensures places { places.new ≡ places_after bytes.now places.old }
{
    let count = bytes.len();
    if places.len() < count {
        return Err(Failure::TooSmall(count));
    }
    places[..count].copy_from_slice(bytes);
    Ok(count)
}

// How many bytes the replies to a text have.
pub fn measure(heap: Global, text: &[u8]) -> Result<usize, Failure>
    ensures { Measured text.now result }
{
    match replies_to(heap, text) {
        Ok(replies) => Ok(replies.len()),
        Err(_) => Err(Failure::NoMemory),
    }
}

// Writes the replies to a text into the first places, and answers how many bytes they have.
#[tactic(auto, using(crate::proofs::Sameness::replies_are_one))]
pub fn run(heap: Global, text: &[u8], places: &mut [u8]) -> Result<usize, Failure>
    ensures run { Run text.now places.old places.new result }
    ensures law { RepliesAreOne }
{
    match replies_to(heap, text) {
        Ok(replies) => put(&replies, places),
        Err(_) => Err(Failure::NoMemory),
    }
}
