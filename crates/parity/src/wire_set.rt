// A set of starting wires, bit w for wire w, and whether it is marked as flipped.
#[derive(Clone, Copy, Debug, PartialEq, Eq)]
pub struct WireSet {
    pub set: u32,
    pub marked: bool,
}
