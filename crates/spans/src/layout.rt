use calibration::table::CalibrationTable;

// A calibrated machine with the homes of labels. It derives no Debug and no equality, since a table has none.
#[derive(Clone, Copy)]
pub struct Layout<'a> {
    pub table: &'a CalibrationTable,
    pub homes: &'a [Option<u8>],
}
