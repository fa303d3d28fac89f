// Jobs, and calls of them with no contract, so that a test knows no more than what it asserts.
use amplitude::amplitudes::AmplitudeRegister;
use circuit::operation::Operation;
use job::closed_job::ClosedJob;
use job::open_job::OpenJob;
use phase::phase_register::PhaseRegister;
use refusal::Refusal;
use rules::one_bend::OneBend;
use std::alloc::Global;

// A closed job of labels on a machine of 8 columns and 8 rows: its gates by letter and labels, and the homes of its labels from label 0 on.
pub(crate) fn job_of(
    heap: Global,
    gates: &[(char, u32, u32)],
    homes: &[u32],
) -> Result<ClosedJob, Refusal> {
    let mut open = OpenJob::new(heap, 8, 8, 4)?;
    for (letter, one, two) in gates {
        open.add(*letter, *one, *two)?;
    }
    let mut job = open.close();
    for (label, home) in (0u32..4).zip(homes) {
        job.place(label, *home)?;
    }
    Ok(job)
}

// A closed job of one label on the cell, with a gate of each letter.
pub(crate) fn letters_at(heap: Global, letters: &str, cell: u32) -> Result<ClosedJob, Refusal> {
    let mut open = OpenJob::new(heap, 8, 8, 1)?;
    for letter in letters.chars() {
        open.add(letter, 0, 0)?;
    }
    let mut job = open.close();
    job.place(0, cell)?;
    Ok(job)
}

// A closed job of as many gates of one letter on cell 0.
pub(crate) fn repeated(heap: Global, letter: char, count: usize) -> Result<ClosedJob, Refusal> {
    let mut open = OpenJob::new(heap, 1, 1, 1)?;
    for _ in 0..count {
        open.add(letter, 0, 0)?;
    }
    let mut job = open.close();
    job.place(0, 0)?;
    Ok(job)
}

// Lists by the rule one-bend.
pub(crate) fn list(job: &ClosedJob, places: &mut [Operation]) -> Result<usize, Refusal> {
    job.list::<OneBend, AmplitudeRegister<'_>, PhaseRegister>(&OneBend, places)
}
