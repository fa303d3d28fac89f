// A machine of 3 columns and 1 row whose links take 2 and 3, and a CNOT from cell 0 to cell 2.
use crate::calls::{judge, list, print_agenda, set_up};
use crate::task::{Task, cnot};
use calibration::values::Calibration;

// The values of a cell with this time of its link to the east.
fn with_link(east: u32) -> Calibration {
    Calibration {
        single: 1,
        read: 1,
        window: 100,
        east,
        south: 0,
    }
}

// Sets the job up, judges it, and prints its agenda and its listing: the CNOT lasts 6 * 2 + 3.
pub(crate) fn tour(rt: &HostRuntime) -> anyhow::Result<()> {
    let task = Task {
        columns: 3,
        rows: 1,
        labels: 2,
        cells: &[(0, with_link(2)), (1, with_link(3))],
        homes: &[0, 2],
        steps: &[cnot(0, 1, 5, 0)],
    };
    let job = set_up(rt, &task)?;
    judge(rt, &job)?;
    print_agenda(rt, &job)?;
    list(rt, &job)?;
    Ok(())
}
