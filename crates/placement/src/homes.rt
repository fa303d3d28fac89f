use grid::machine::Machine;

// The homes of labels on a machine: the cell that is written for each label, or none.
#[derive(Clone, Copy, Debug, PartialEq, Eq)]
pub struct Homes<'a> {
    pub machine: Machine,
    pub cells: &'a [Option<u8>],
}
