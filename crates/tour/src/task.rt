// What a solver hands over: a machine, the values of its cells, a program, and where and when each of its gates is done.
use calibration::values::Calibration;

// A gate of the program with its start and its choice of route. The second label is of no use but to a CNOT.
#[derive(Clone, Copy)]
pub(crate) struct Step {
    pub(crate) letter: char,
    pub(crate) one: u32,
    pub(crate) two: u32,
    pub(crate) start: u32,
    pub(crate) choice: u32,
}

// A job to be set up: cells with their values, the home of each label from label 0 on, and the gates in program order.
#[derive(Clone, Copy)]
pub(crate) struct Task<'a> {
    pub(crate) columns: u32,
    pub(crate) rows: u32,
    pub(crate) labels: u32,
    pub(crate) cells: &'a [(u32, Calibration)],
    pub(crate) homes: &'a [u32],
    pub(crate) steps: &'a [Step],
}

// A gate on one label.
pub(crate) fn one(letter: char, label: u32, start: u32) -> Step {
    Step {
        letter,
        one: label,
        two: label,
        start,
        choice: 0,
    }
}

// A CNOT.
pub(crate) fn cnot(control: u32, target: u32, start: u32, choice: u32) -> Step {
    Step {
        letter: 'C',
        one: control,
        two: target,
        start,
        choice,
    }
}

// The values of a cell of these machines: gates on one label last 1, reads 5, and the cell keeps its state until 100.
pub(crate) fn links(east: u32, south: u32) -> Calibration {
    Calibration {
        single: 1,
        read: 5,
        window: 100,
        east,
        south,
    }
}
