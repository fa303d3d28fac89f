ghost use Rattle.std.specs.Prelude.{◌≡◌, true, false, map, None};
ghost use Rattle.refusal.specs.Refusals.{ok_unless};
ghost use Rattle.plan.specs.Plans.{retimed};
ghost use Rattle.book.specs.Calls.{time, reopen};
ghost use Rattle.book.specs.Refusals.{timing_refusal};
ghost use Rattle.book.specs.Answers.{answer};
ghost use Rattle.book.specs.Histories.{fed};
ghost use Rattle.store.specs.Stores.{timing_at, store_plan, store_book};

use crate::store::Store;
use plan::gate::{Gate, Timing};
use plan::timing::*;
use refusal::Refusal;

// Drops each gate's timing.
fn drop_timings(gates: &mut [Gate])
    ensures { gates.new ≡ map (λ g. retimed g None) gates.old }
{
    for gate in gates.iter_mut() {
        gate.timing = None;
    }
}

impl Store {
    // The timing of these numbers for the gate; or why it is refused: there is no such gate, or a number is too large.
    pub fn timing(&self, gate: u32, start: u32, choice: u32) -> Result<Timing, Refusal>
        ensures { result ≡ ok_unless (timing_refusal (store_plan self.now) gate start choice) (timing_at start choice) }
    {
        let gate = gate as usize;
        if gate >= self.gates.len() {
            return Err(Refusal::NoSuchGate(gate));
        }
        if start > 1000000 {
            return Err(Refusal::StartTooLarge(gate));
        }
        if choice > 255 {
            return Err(Refusal::ChoiceTooLarge(gate));
        }
        Ok(Timing {
            start,
            choice: choice as u8,
        })
    }

    // Gives the gate its start and choice, and answers the gate. Only this gate's record is lent and written.
    pub fn time(&mut self, gate: u32, start: u32, choice: u32) -> Result<usize, Refusal>
        ensures answer { result ≡ answer (store_book true self.old) (time gate start choice) }
        ensures book { store_book true self.new ≡ fed (store_book true self.old) (time gate start choice) }
    {
        let timing = self.timing(gate, start, choice)?;
        let gate = gate as usize;
        self.gates[gate].retime(timing);
        Ok(gate)
    }

    // Opens the program again: each gate's timing is dropped.
    pub fn reopen(&mut self)
        ensures { store_book false self.new ≡ fed (store_book true self.old) reopen }
    {
        drop_timings(&mut self.gates);
    }
}
