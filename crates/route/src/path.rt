ghost use Rattle.std.specs.Prelude.{◌≤◌};

mod calls;

// Cells one after another, at most 64.
// The bound is in the type, and there is no `impl Model`: one who holds a path then knows it without a call, and a struct that holds a path is passed by value as any other.
#[derive(Clone, Copy, Debug, PartialEq, Eq)]
pub struct Path {
    // No `Vec`: a rule of the project. A path takes fixed memory, copies and needs no heap. Places beyond the length hold 0.
    places: [u8; 64],
    len: usize,
    ghost few: { len ≤ 64 },
}
