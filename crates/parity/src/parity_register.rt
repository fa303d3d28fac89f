ghost use Rattle.std.specs.Prelude.{◌≤◌, ◌<◌, ◌^◌, ℕ, slice_index};

mod calls;
mod ends;
mod gates;
mod sets;

// At most 32 wires. A wire's word has bit w where its set has the starting wire w, and bit 32 where the wire is marked as flipped.
#[derive(Clone, Copy, Debug, PartialEq, Eq)]
pub struct ParityRegister {
    wires: u8,
    // Words for 32 wires, whatever the number of wires: a register takes fixed memory, copies and needs no heap.
    words: [u64; 32],
    ghost few: { wires ≤ 32 },
    ghost small: { (w : ℕ) → slice_index words w < 2 ^ 33 },
}
