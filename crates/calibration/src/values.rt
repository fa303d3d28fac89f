// A cell's calibration, in timeslots: how long a gate on one wire lasts there, how long a read, until when the cell keeps its state (its window), and the times of the links to the east and to the south, 0 where there is no link.
#[derive(Clone, Copy, Debug, PartialEq, Eq, Default)]
pub struct Calibration {
    pub single: u32,
    pub read: u32,
    pub window: u32,
    pub east: u32,
    pub south: u32,
}
