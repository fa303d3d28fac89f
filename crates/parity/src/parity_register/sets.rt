ghost use Rattle.std.specs.Prelude.{◌≡◌, if◌then◌else◌, Some, None, IfSome, nat_lt};
ghost use Rattle.parity.specs.Registers.{parity_state};
ghost use Rattle.parity.specs.Sets.{set_in, number_told, ParitySets};

use crate::parity_register::ParityRegister;
use crate::wire_set::WireSet;

impl ParityRegister {
    // A wire as a set of starting wires with its mark, or none where there is no such wire. What is told of the wire is the sum of 2 ^ w over the set, plus 2 ^ 32 if marked.
    #[tactic(auto, using(crate::proofs::Sets::parity_sets, crate::proofs::Sets::told_word))]
    pub fn wire_set(&self, wire: u8) -> Option<WireSet>
        ensures value { result ≡ (if nat_lt wire (parity_state self.now).wires then Some (set_in ((parity_state self.now).words wire)) else None) }
        ensures told { IfSome result (λ u. number_told u ≡ (parity_state self.now).words wire) }
        ensures sets { ParitySets }
    {
        if wire >= self.wires {
            return None;
        }
        let word = self.words[wire as usize];
        Some(WireSet {
            set: (word % (1 << 32)) as u32,
            marked: (word >> 32) % 2 == 1,
        })
    }
}
