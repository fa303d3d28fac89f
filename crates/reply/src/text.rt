// A reply as text.
ghost use Rattle.std.specs.Prelude.{◌≡◌, ◌+◌, ◌≤◌, ◌∷◌, ◌++◌, [], drop, take};
ghost use Rattle.refusal.specs.Texts.{refusal_text};
ghost use Rattle.reply.specs.Texts.{reply_text, operation_text, entry_text, cell_or_dash};

pub use crate::digits::PLACES;
use crate::digits::{put_byte, put_number, put_spaced};
use crate::reply::Reply;
use circuit::operation::Operation;
use plan::gate::AgendaEntry;
use refusal::{Refusal, Shown};

// Puts a refusal's number and places in front of the bytes from `end` on, and answers where they begin.
#[tactic(auto, using(crate::proofs::Decimals::before_both))]
fn put_refusal(refusal: Refusal, places: &mut [u8; PLACES], end: usize) -> usize
    requires { (62 ≤ end) × (end ≤ 128) }
    ensures room { end ≤ result + 62 }
    ensures within { result ≤ end }
    ensures bytes { drop result places.new ≡ refusal_text refusal ++ drop end places.old }
    ensures before { take result places.new ≡ take result places.old }
{
    let Shown {
        number,
        first,
        second,
    } = refusal.shown();
    let at = put_spaced(second as u64, places, end);
    let at = put_spaced(first as u64, places, at);
    put_number(u64::from(number), places, at)
}

// Puts a space and the second cell of an operation, or a dash, in front of the bytes from `end` on.
#[tactic(auto, using(crate::proofs::Decimals::before_both))]
fn put_second(second: Option<u8>, places: &mut [u8; PLACES], end: usize) -> usize
    requires { (21 ≤ end) × (end ≤ 128) }
    ensures room { end ≤ result + 21 }
    ensures within { result ≤ end }
    ensures bytes { drop result places.new ≡ 32 ∷ (cell_or_dash second ++ drop end places.old) }
    ensures before { take result places.new ≡ take result places.old }
{
    match second {
        Some(cell) => put_spaced(u64::from(cell), places, end),
        None => {
            let at = put_byte(b'-', places, end);
            put_byte(b' ', places, at)
        }
    }
}

// Puts an operation as a line of the listing in front of the bytes from `end` on, and answers where it begins.
fn put_operation(operation: Operation, places: &mut [u8; PLACES], end: usize) -> usize
    requires { (106 ≤ end) × (end ≤ 128) }
    ensures within { result ≤ end }
    ensures bytes { drop result places.new ≡ operation_text operation ++ drop end places.old }
    ensures before { take result places.new ≡ take result places.old }
{
    let Operation {
        start,
        length,
        action,
        gate,
    } = operation;
    let at = put_spaced(u64::from(gate), places, end);
    let at = put_second(action.second_wire(), places, at);
    let at = put_spaced(u64::from(action.first_wire()), places, at);
    let at = put_byte(action.letter() as u8, places, at);
    let at = put_byte(b' ', places, at);
    let at = put_spaced(u64::from(length), places, at);
    put_number(u64::from(start), places, at)
}

// Puts a line of the agenda in front of the bytes from `end` on, and answers where it begins.
#[tactic(auto, using(crate::proofs::Decimals::before_both))]
fn put_entry(entry: AgendaEntry, places: &mut [u8; PLACES], end: usize) -> usize
    requires { (41 ≤ end) × (end ≤ 128) }
    ensures within { result ≤ end }
    ensures bytes { drop result places.new ≡ entry_text entry ++ drop end places.old }
    ensures before { take result places.new ≡ take result places.old }
{
    let at = put_spaced(u64::from(entry.gate), places, end);
    put_number(u64::from(entry.start), places, at)
}

// Puts two letters in front of the bytes from `end` on, and answers where they begin.
#[tactic(auto, using(crate::proofs::Decimals::before_both))]
fn put_word(word: [u8; 2], places: &mut [u8; PLACES], end: usize) -> usize
    requires { (2 ≤ end) × (end ≤ 128) }
    ensures within { result ≤ end }
    ensures bytes { drop result places.new ≡ word ++ drop end places.old }
    ensures before { take result places.new ≡ take result places.old }
{
    let at = put_byte(word[1], places, end);
    put_byte(word[0], places, at)
}

// Puts a reply in front of the bytes from `end` on, and answers where it begins.
#[tactic(auto, using(crate::proofs::Decimals::before_both))]
fn put_reply(reply: Reply, places: &mut [u8; PLACES], end: usize) -> usize
    requires { (106 ≤ end) × (end ≤ 128) }
    ensures within { result ≤ end }
    ensures bytes { drop result places.new ≡ reply_text reply ++ drop end places.old }
    ensures before { take result places.new ≡ take result places.old }
{
    match reply {
        Reply::Ok(number) => {
            let at = put_spaced(number, places, end);
            put_word(*b"ok", places, at)
        }
        Reply::No(refusal, line) => {
            let at = put_spaced(line, places, end);
            let at = put_refusal(refusal, places, at);
            let at = put_byte(b' ', places, at);
            put_word(*b"no", places, at)
        }
        Reply::Entry(entry) => put_entry(entry, places, end),
        Reply::Operation(operation) => put_operation(operation, places, end),
    }
}

// Puts the line of a reply, with its line feed, into the last places, and answers where it begins. All places in front of it keep what they held.
#[tactic(auto, using(crate::proofs::Decimals::ended))]
pub fn put_line(reply: Reply, places: &mut [u8; PLACES]) -> usize
    ensures within { result ≤ 128 }
    ensures bytes { drop result places.new ≡ reply_text reply ++ 10 ∷ [] }
    ensures before { take result places.new ≡ take result places.old }
{
    let end = put_byte(b'\n', places, PLACES);
    put_reply(reply, places, end)
}
