ghost use Rattle.std.specs.Prelude.{ℕ, ◌^◌, ◌≤◌, length};
ghost use Rattle.amplitude.specs.Sizes.{used, vector, Small};

use matrices::Amplitude;

mod calls;
mod gates;

// Amplitudes on at most 10 wires, with the count of H, at most 60. Bit w of an index is wire w. No number is larger than 2 to the count.
// A slice, since a register takes no memory of its own: the caller lends the places.
#[derive(Drop)]
pub struct AmplitudeRegister<'a> {
    places: &'a mut [Amplitude],
    wires: u8,
    h_done: u32,
    ghost few: { wires ≤ 10 },
    ghost most: { h_done ≤ 60 },
    ghost room: { used wires ≤ length places.now },
    ghost small: { (i : ℕ) → Small (2 ^ h_done) (vector wires places.now i) },
}
