use job::closed_job::ClosedJob;
use job::open_job::OpenJob;

// The job that there is, in one of its two states, or none.
#[derive(Drop)]
pub enum Session {
    NoJob,
    Open(OpenJob),
    Closed(ClosedJob),
}
