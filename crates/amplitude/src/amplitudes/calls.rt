// What users call.
ghost use Rattle.std.specs.Prelude.{◌≡◌, ◌≤◌, ◌+◌, length, drop, Some, None, if◌then◌else◌, nat_lt, OnOk, IfSome, ◌^◌};
ghost use Rattle.circuit.specs.Actions.{is_h};
ghost use Rattle.circuit.specs.declared.action.Plain.{Plain};
ghost use Rattle.register.specs.declared.rows.PlainRow.{PlainRow};
ghost use Rattle.circuit.specs.Operations.{one_if};
ghost use Rattle.refusal.specs.Refusals.{ok_unless};
ghost use Rattle.register.specs.Runs.{capacity, applying_refusal};
ghost use Rattle.register.specs.Models.{Fit};
ghost use Rattle.register.specs.Rows.{plain_row};
ghost use Rattle.amplitude.specs.Sizes.{used, vector, Small};
ghost use Rattle.amplitude.specs.Models.{amplitude_model, act, takes_all, ActsByMatrices, blank_vector, blank_state};
ghost use Rattle.amplitude.specs.Held.{state, done, wires_made, Lent};

use crate::amplitudes::AmplitudeRegister;
use crate::pass::act_on_places;
use circuit::action::Action;
use matrices::Amplitude;
use refusal::Refusal;
use register::check::{is_h, is_off_wires, is_past};

// The greatest count of H.
pub(super) const H_MOST: u32 = 60;

// How many places a register of so many wires uses.
fn used(wires: u8) -> usize
    requires { wires ≤ 10 }
    ensures { result ≡ used wires }
{
    if wires == 0 { 0 } else { 1 << wires }
}

// How many wires a register gets that is asked for so many in so many places.
fn wires_made(places: usize, wires: u8) -> u8
    ensures value { result ≡ wires_made places wires }
    ensures few { result ≤ 10 }
    ensures room { used result ≤ places }
{
    if wires <= 10 && used(wires) <= places {
        wires
    } else {
        0
    }
}

// 1 at index 0, and 0 at the other indices.
fn write_blank(places: &mut [Amplitude], wires: u8)
    requires few { wires ≤ 10 }
    requires room { used wires ≤ length places.old }
    ensures blank { vector wires places.new ≡ blank_vector wires }
    ensures rest { drop (used wires) places.new ≡ drop (used wires) places.old }
    ensures long { length places.new ≡ length places.old }
{
    let nought = Amplitude {
        a: 0,
        b: 0,
        c: 0,
        d: 0,
    };
    let used = used(wires);
    places[..used].fill(nought);
    if used > 0 {
        places[0].a = 1;
    }
}

impl<'a> AmplitudeRegister<'a> {
    // A blank register in the places given. It has no wires where 0 are asked for, more than 10, or more than there are places for.
    pub fn new(places: &'a mut [Amplitude], wires: u8) -> AmplitudeRegister<'a>
        ensures blank { state result ≡ blank_state (wires_made (length places.old) wires) }
        ensures none { done result ≡ 0 }
        ensures lent { (result.places.ghost_name ≡ places.entry.ghost_name) × (length result.places.now ≡ length places.old) }
        ensures rest { drop (used result.wires) result.places.now ≡ drop (used result.wires) places.old }
    {
        let wires = wires_made(places.len(), wires);
        write_blank(places, wires);
        AmplitudeRegister {
            places,
            wires,
            h_done: 0,
        }
    }

    // The amplitude at an index, or none past the last. Its numbers are at most 2 to the count of H in size. Acting on the register is multiplying its amplitudes by the action's matrix, whatever the rows of the plain gates.
    #[tactic(auto, using(crate::proofs::Multiplies::acts_by_matrices))]
    pub fn amplitude(&self, index: usize) -> Option<Amplitude>
        ensures multiplies { (rows : Plain → PlainRow) → ActsByMatrices rows }
        ensures bounded { IfSome result (λ x. Small (2 ^ done self.now) x) }
        ensures value { result ≡ (if nat_lt index (used (state self.now).wires) then Some ((state self.now).vector index) else None) }
    {
        if index < used(self.wires) {
            Some(self.places[index])
        } else {
            None
        }
    }

    // Why the register does not take an action, or that it does.
    #[tactic(auto, using(crate::proofs::Fitting::fit_from))]
    pub(super) fn check(&self, action: Action) -> Result<(), Refusal>
        ensures answer { result ≡ ok_unless (applying_refusal (capacity (amplitude_model plain_row) 60 (state self.now) (done self.now) None) action) tt }
        ensures fits { OnOk result (Fit (state self.now).wires takes_all action) }
        ensures few { OnOk result (done self.now + one_if (is_h action) ≤ 60) }
    {
        if is_off_wires(self.wires, action) {
            return Err(Refusal::NotOnWires(0));
        }
        if is_past(self.h_done, H_MOST, usize::from(is_h(action))) {
            return Err(Refusal::TooManyH);
        }
        Ok(())
    }

    // An action that fits, where an H is not one too many.
    pub(super) fn act(&mut self, action: Action)
        requires fits { Fit self.old.wires takes_all action }
        requires few { done self.old + one_if (is_h action) ≤ 60 }
        ensures acted { state self.new ≡ act plain_row action (state self.old) }
        ensures counted { done self.new ≡ done self.old + one_if (is_h action) }
        ensures lent { Lent self.old self.new }
    {
        act_on_places(self.places, self.wires, action);
        self.h_done += u32::from(is_h(action));
    }
}
