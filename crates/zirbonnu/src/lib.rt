// The calls that C and Rust programs make, as a static library. Their declarations for C stand in include/zirbonnu.h.
#![tactic(auto)]

ghost use Rattle.std.specs.Prelude.{◌≡◌};
ghost use Rattle.zirbonnu.specs.Exports.{MeasureCalled, RunCalled, status_of, count_after};

use embedded::failure::Failure;
use embedded::run::{measure, run};
use std::alloc::Global;

// The status of an answer, with its number of bytes, if it names one, in the count.
fn told(answer: Result<usize, Failure>, count: &mut usize) -> u32
    ensures status { result ≡ status_of answer }
    ensures count { count.new ≡ count_after answer count.old }
{
    match answer {
        Ok(bytes) => {
            *count = bytes;
            0
        }
        Err(Failure::TooSmall(bytes)) => {
            *count = bytes;
            1
        }
        Err(Failure::NoMemory) => 2,
    }
}

// Counts the bytes of the replies to a text.
#[unsafe(no_mangle)]
pub extern "C" fn zirbonnu_measure(heap: Global, text: &[u8], count: &mut usize) -> u32
    ensures { MeasureCalled text.now count.old count.new result }
{
    told(measure(heap, text), count)
}

// Writes the replies to a text into the first places, and counts their bytes.
#[unsafe(no_mangle)]
pub extern "C" fn zirbonnu_run(
    heap: Global,
    text: &[u8],
    places: &mut [u8],
    count: &mut usize,
) -> u32
    ensures { RunCalled text.now places.old places.new count.old count.new result }
{
    told(run(heap, text, places), count)
}
