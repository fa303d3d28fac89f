// A gate on one wire that only flips it or turns its phase.
#[derive(Clone, Copy, PartialEq, Eq, Debug)]
pub enum Plain {
    X,
    Y,
    Z,
    S,
    T,
}

// What is done to one wire: the Hadamard gate, a plain gate, or a read.
#[derive(Clone, Copy, PartialEq, Eq, Debug)]
pub enum Single {
    H,
    Plain(Plain),
    Read,
}

// A kind with the wires it acts on. The wires of a gate of the program are labels, those of an operation are cells. A CNOT names its control first.
#[derive(Clone, Copy, PartialEq, Eq, Debug)]
pub enum Action {
    One(Single, u8),
    Cnot(u8, u8),
}
