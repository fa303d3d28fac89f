// Which leg of a bent way comes first.
#[derive(Clone, Copy, Debug, PartialEq, Eq)]
pub(crate) enum Leg {
    Row,
    Column,
}
