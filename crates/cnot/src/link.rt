ghost use Rattle.std.specs.Prelude.{◌≡◌, ◌≤◌};
ghost use Rattle.cnot.specs.Links.{times_of, link_of, reversed};

use calibration::table::CalibrationTable;

// A link that a path crosses, and its time.
#[derive(Clone, Copy, Debug, PartialEq, Eq)]
pub struct Link {
    pub from: u8,
    pub to: u8,
    pub time: u32,
}

impl Link {
    // The link between two cells, by a table of calibration.
    #[tactic(auto, using(crate::proofs::Links::time_few))]
    pub(crate) fn between(table: &CalibrationTable, ends: &[u8; 2]) -> Link
        ensures value { result ≡ link_of (times_of table.now) ends.now }
        ensures few { result.time ≤ 1000 }
    {
        let [from, to] = *ends;
        Link {
            from,
            to,
            time: table.link_time(from, to),
        }
    }

    // The link from its other end.
    pub(crate) fn reversed(self) -> Link
        ensures { result ≡ reversed self }
    {
        Link {
            from: self.to,
            to: self.from,
            time: self.time,
        }
    }
}
