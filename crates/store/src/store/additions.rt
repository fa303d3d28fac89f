ghost use Rattle.std.specs.Prelude.{◌≡◌, ◌<◌, false, OnOk};
ghost use Rattle.circuit.specs.Actions.{action_of};
ghost use Rattle.plan.specs.Plans.{gate_count};
ghost use Rattle.book.specs.Calls.{add};
ghost use Rattle.book.specs.Answers.{answer};
ghost use Rattle.book.specs.Histories.{fed};
ghost use Rattle.store.specs.Stores.{store_plan, store_book, MakesGate};

use crate::store::Store;
use adding::new_gate;
use plan::gate::Gate;
use refusal::Refusal;

impl Store {
    // The gate to be added; or why it is refused.
    #[tactic(auto, using(crate::proofs::Added::makes_gate))]
    fn new_gate(&self, letter: char, one: u32, two: u32) -> Result<Gate, Refusal>
        ensures made { MakesGate (store_plan self.now) (action_of letter one two) result }
        ensures room { OnOk result (gate_count (store_plan self.now) < 256) }
    {
        new_gate(letter, one, two, self.labels(), &self.gates)
    }

    // Adds a gate as the last of the program, and answers its number.
    pub fn add(&mut self, letter: char, one: u32, two: u32) -> Result<usize, Refusal>
        ensures answer { result ≡ answer (store_book false self.old) (add letter one two) }
        ensures book { store_book false self.new ≡ fed (store_book false self.old) (add letter one two) }
    {
        let gate = self.new_gate(letter, one, two)?;
        let number = self.gates.len();
        self.gates.push(gate).unwrap();
        Ok(number)
    }
}
