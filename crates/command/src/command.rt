use calibration::values::Calibration;

// A command to a job, with its arguments as they stand on the line. None of them is tested against a job yet.
#[derive(Clone, Copy, PartialEq, Eq, Debug)]
pub enum Command {
    // Begins a job on a machine, with a number of labels.
    Open {
        columns: u32,
        rows: u32,
        labels: u32,
    },
    // Adds a gate of the kind that the letter names. The second label is 0 for a kind on one label.
    Add {
        letter: char,
        one: u32,
        two: u32,
    },
    // Closes the program.
    Close,
    // Opens the program again.
    Reopen,
    // Gives a cell other calibration values.
    Calibrate {
        cell: u32,
        values: Calibration,
    },
    // Gives a label a home.
    Place {
        label: u32,
        cell: u32,
    },
    // Gives a gate a start and a route choice.
    Time {
        gate: u32,
        start: u32,
        choice: u32,
    },
    // Asks what judging would say if a gate had another start and route choice.
    Try {
        gate: u32,
        start: u32,
        choice: u32,
    },
    // Asks for the verdict.
    Judge,
    // Asks for the gates with a timing, in order of start.
    Agenda,
    // Asks for all operations.
    List,
}
