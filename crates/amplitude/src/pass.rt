// A gate on all pairs of amplitudes, in place.
ghost use Rattle.std.specs.Prelude.{◌≡◌, ℕ, true, ◌<◌, ◌≤◌, ◌^◌, length, drop, false, slice_set, slice_index_or};
ghost use Rattle.bits.specs.Bits.{bit};
ghost use Rattle.matrices.specs.Numbers.{nought};
ghost use Rattle.matrices.specs.Indices.{indices, flipped};
ghost use Rattle.matrices.specs.Gates.{acted};
ghost use Rattle.register.specs.Models.{Fit};
ghost use Rattle.register.specs.Rows.{plain_row};
ghost use Rattle.amplitude.specs.Models.{takes_all};
ghost use Rattle.amplitude.specs.Sizes.{used, vector, Small};
ghost use Rattle.amplitude.specs.declared.pair.PairGate.{PairGate};
ghost use Rattle.amplitude.specs.Pairs.{first_of, applied_to, entry, is_on, Apart, pair_gate};

use crate::pair::{PairGate, pair_after};
use circuit::action::{Action, Single};
use matrices::Amplitude;
use register::rows::row;

// The bit of a wire in an index.
fn has_bit(i: usize, wire: u8) -> bool
    requires { wire < 64 }
    ensures { result ≡ bit i wire }
{
    (i >> wire) % 2 == 1
}

// The index with the bit of a wire flipped.
fn across(i: usize, wire: u8) -> usize
    requires { wire < 64 }
    ensures { result ≡ flipped wire i }
{
    i ^ (1 << wire)
}

// Whether the control of a gate, where it has one, is 1 at an index.
fn is_on(gate: PairGate, i: usize) -> bool
    requires { first_of gate 0 < 64 }
    ensures { result ≡ is_on gate i }
{
    match gate {
        PairGate::Plain(_) | PairGate::H => true,
        PairGate::Flip(control) => has_bit(i, control),
    }
}

// A gate on one pair, by the lower index.
fn act_on_pair(places: &mut [Amplitude], wire: u8, gate: PairGate, i: usize)
    requires wires { (wire < 64) × (first_of gate 0 < 64) }
    requires within { (i < length places.old) × (flipped wire i < length places.old) }
    requires low_small { Small (2 ^ 60) (slice_index_or places.old i nought) }
    requires high_small { Small (2 ^ 60) (slice_index_or places.old (flipped wire i) nought) }
    ensures { places.new ≡ slice_set (slice_set places.old i (entry gate (is_on gate i) false (slice_index_or places.old i nought) (slice_index_or places.old (flipped wire i) nought))) (flipped wire i) (entry gate (is_on gate i) true (slice_index_or places.old (flipped wire i) nought) (slice_index_or places.old i nought)) }
{
    let other = across(i, wire);
    let (low, high) = pair_after(gate, is_on(gate, i), places[i], places[other]);
    places[i] = low;
    places[other] = high;
}

// A gate on all pairs whose indices differ at the wire.
pub(crate) fn act_on_pairs(places: &mut [Amplitude], wires: u8, wire: u8, gate: PairGate)
    requires few { wires ≤ 10 }
    requires on_wires { (wire < wires) × (first_of gate wire < wires) }
    requires apart { Apart gate wire }
    requires room { 2 ^ wires ≤ length places.old }
    requires small { (i : ℕ) → Small (2 ^ 60) (vector wires places.old i) }
    ensures acted { vector wires places.new ≡ applied_to gate wire (vector wires places.old) }
    ensures long { length places.new ≡ length places.old }
    ensures rest { drop (2 ^ wires) places.new ≡ drop (2 ^ wires) places.old }
{
    for i in 0..1usize << wires {
        if !has_bit(i, wire) {
            act_on_pair(places, wire, gate, i);
        }
    }
}

// Exchanges a pair, by the lower index, where the control is 1 there.
#[tactic(auto, using(crate::proofs::Exchanges::kept_pair))]
fn exchange(places: &mut [Amplitude], wire: u8, control: u8, i: usize)
    requires wires { (wire < 64) × (control < 64) }
    requires within { (i < length places.old) × (flipped wire i < length places.old) }
    ensures { places.new ≡ slice_set (slice_set places.old i (entry (PairGate.Flip control) (bit i control) false (slice_index_or places.old i nought) (slice_index_or places.old (flipped wire i) nought))) (flipped wire i) (entry (PairGate.Flip control) (bit i control) true (slice_index_or places.old (flipped wire i) nought) (slice_index_or places.old i nought)) }
{
    if !has_bit(i, control) {
        return;
    }
    let other = across(i, wire);
    let (low, high) = (places[i], places[other]);
    places[i] = high;
    places[other] = low;
}

// A CNOT on all pairs whose indices differ at its target. Apart from `act_on_pairs`, so that the loop does nothing but exchange.
fn exchange_pairs(places: &mut [Amplitude], wires: u8, wire: u8, control: u8)
    requires few { wires ≤ 10 }
    requires on_wires { (wire < wires) × (control < wires) }
    requires apart { Apart (PairGate.Flip control) wire }
    requires room { 2 ^ wires ≤ length places.old }
    ensures acted { vector wires places.new ≡ applied_to (PairGate.Flip control) wire (vector wires places.old) }
    ensures long { length places.new ≡ length places.old }
    ensures rest { drop (2 ^ wires) places.new ≡ drop (2 ^ wires) places.old }
{
    for i in 0..1usize << wires {
        if !has_bit(i, wire) {
            exchange(places, wire, control, i);
        }
    }
}

// What an action does to pairs, and at which wire. A read does nothing.
fn pair_gate(action: Action) -> Option<(PairGate, u8)>
    ensures { result ≡ pair_gate action }
{
    match action {
        Action::One(Single::H, wire) => Some((PairGate::H, wire)),
        Action::One(Single::Plain(gate), wire) => Some((PairGate::Plain(row(gate)), wire)),
        Action::One(Single::Read, _) => None,
        Action::Cnot(control, target) => Some((PairGate::Flip(control), target)),
    }
}

// An action on the amplitudes of so many wires.
pub(crate) fn act_on_places(places: &mut [Amplitude], wires: u8, action: Action)
    requires few { wires ≤ 10 }
    requires fits { Fit wires takes_all action }
    requires room { used wires ≤ length places.old }
    requires small { (i : ℕ) → Small (2 ^ 60) (vector wires places.old i) }
    ensures acted { vector wires places.new ≡ acted indices plain_row action (vector wires places.old) }
    ensures long { length places.new ≡ length places.old }
    ensures rest { drop (used wires) places.new ≡ drop (used wires) places.old }
{
    match pair_gate(action) {
        Some((PairGate::Flip(control), wire)) => exchange_pairs(places, wires, wire, control),
        Some((gate, wire)) => act_on_pairs(places, wires, wire, gate),
        None => {}
    }
}
