// The whole numbers of amplitudes, the matrices of the kinds, and what multiplying a vector by them is. One type, definitions and proofs.
#![tactic(auto)]

// The number a + bω + cω² + dω³, where ω⁴ = −1.
#[derive(Clone, Copy, Debug, PartialEq, Eq)]
pub struct Amplitude {
    pub a: i64,
    pub b: i64,
    pub c: i64,
    pub d: i64,
}
