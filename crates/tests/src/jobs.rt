// Kinds that are none, and choices under the rules one-bend and rectangle.
use crate::steps::job_of;
use job::closed_job::ClosedJob;
use job::open_job::OpenJob;
use refusal::Refusal;
use rules::one_bend::OneBend;
use rules::rectangle::Rectangle;

// A kind is tested before labels are.
#[test]
fn no_kind(rt: HostRuntime) -> Result<(), Refusal> {
    let mut open = OpenJob::new(rt.alloc(), 1, 1, 1)?;
    for letter in ['Q', 'h', ' ', 'é'] {
        assert_eq!(rt; open.add(letter, 9, 9), Err(Refusal::UnknownKind));
    }
    Ok(())
}

// What gate 0 is judged under one-bend and rectangle with a choice, and what where it is tried from 5 on.
fn judged(job: &mut ClosedJob, choice: u32) -> Result<[Result<u64, Refusal>; 4], Refusal> {
    job.time(0, 0, choice)?;
    Ok([
        job.judge(&OneBend),
        job.judge(&Rectangle),
        job.try_timing(&OneBend, 0, 5, choice),
        job.try_timing(&Rectangle, 0, 5, choice),
    ])
}

// From corner to corner of a square one-bend offers two choices, rectangle one.
#[test]
fn choices(rt: HostRuntime) -> Result<(), Refusal> {
    let mut job = job_of(rt.alloc(), &[('C', 0, 1)], &[0, 9])?;
    let refused = Err(Refusal::ChoiceNotOffered(0));
    let want = [
        [Ok(7), Ok(7), Ok(12), Ok(12)],
        [Ok(7), refused, Ok(12), refused],
        [refused; 4],
    ];
    for (choice, row) in (0u32..3).zip(want) {
        assert_eq!(rt; judged(&mut job, choice), Ok(row), "by {choice}");
    }
    Ok(())
}
