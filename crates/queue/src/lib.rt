// A priority queue in places that the caller lends, for every element type with a total order.
#![tactic(auto)]

ghost use Rattle.std.specs.Prelude.{◌≤◌, length};

mod calls;
mod steps;

// The first `len` places hold what waits, in the order in which it came.
// A slice and its length, since a queue takes no memory of its own: the caller lends the places.
#[derive(Drop)]
pub struct Queue<'a, T> {
    places: &'a mut [T],
    len: usize,
    ghost fits: { len ≤ length places.now },
}
