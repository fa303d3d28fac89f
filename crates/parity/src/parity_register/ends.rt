ghost use Rattle.std.specs.Prelude.{◌≡◌, ◌<◌, ◌≤◌};
ghost use Rattle.bits.specs.Bits.{bit};
ghost use Rattle.parity.specs.Registers.{parity_state};
ghost use Rattle.parity.specs.Vectors.{word_bit, end_index, ParityMultiplies};

use crate::parity_register::ParityRegister;

// The bit at a place of a word.
fn bit_of(word: u64, place: u8) -> bool
    requires { place < 64 }
    ensures { result ≡ bit word place }
{
    (word >> place) % 2 == 1
}

// The bit of a wire with this word, where the starting wires have the bits of `start`.
#[tactic(auto, using(crate::proofs::Ends::parity_more))]
fn bit_from(word: u64, start: u64, wires: u8) -> bool
    requires { wires ≤ 32 }
    ensures { result ≡ word_bit wires start word }
{
    let mut odd = false;
    for wire in 0..wires {
        if bit_of(word, wire) && bit_of(start, wire) {
            odd = !odd;
        }
    }
    if bit_of(word, 32) { !odd } else { odd }
}

impl ParityRegister {
    // The bits of all wires, bit w for wire w, where the starting wires have the bits of `start`. Acting on the register is, for each start, multiplying the vector that is 1 at this index by the action's matrix.
    #[tactic(auto, using(crate::proofs::Multiplies::parity_multiplies, crate::proofs::Ends::number_more, crate::proofs::Words::one_word))]
    pub fn end_from(&self, start: u64) -> u64
        ensures value { result ≡ end_index (parity_state self.now) start }
        ensures multiplies { ParityMultiplies }
    {
        let mut end = 0;
        for wire in 0..self.wires {
            if bit_from(self.words[wire as usize], start, self.wires) {
                end ^= 1 << wire;
            }
        }
        end
    }
}
