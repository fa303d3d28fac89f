// The calls on the job that there is.
ghost use Rattle.std.specs.Prelude.{◌≡◌};
ghost use Rattle.book.specs.Calls.{add, close, calibrate, place, time, try, judge, reopen};
ghost use Rattle.session.specs.Sessions.{session_book, call_answer, call_after};

use crate::session::Session;
use calibration::values::Calibration;
use refusal::Refusal;
use route::rule::RouteRule;
use std::mem;

impl Session {
    // Adds a gate to an open program, and answers its number.
    pub fn add(&mut self, letter: char, one: u32, two: u32) -> Result<u64, Refusal>
        ensures answer { result ≡ call_answer (session_book self.old) (add letter one two) }
        ensures book { session_book self.new ≡ call_after (session_book self.old) (add letter one two) }
    {
        match self {
            Session::Open(job) => Ok(job.add(letter, one, two)? as u64),
            _ => Err(Refusal::WrongState),
        }
    }

    // Closes an open program, and answers how many gates it has.
    pub fn close(&mut self) -> Result<u64, Refusal>
        ensures answer { result ≡ call_answer (session_book self.old) close }
        ensures book { session_book self.new ≡ call_after (session_book self.old) close }
    {
        match mem::replace(self, Session::NoJob) {
            Session::Open(job) => {
                let gates = job.gate_count();
                *self = Session::Closed(job.close());
                Ok(gates as u64)
            }
            other => {
                *self = other;
                Err(Refusal::WrongState)
            }
        }
    }

    // Opens a closed program again, and answers how many gates it has.
    pub fn reopen(&mut self) -> Result<u64, Refusal>
        ensures answer { result ≡ call_answer (session_book self.old) reopen }
        ensures book { session_book self.new ≡ call_after (session_book self.old) reopen }
    {
        match mem::replace(self, Session::NoJob) {
            Session::Closed(job) => {
                let gates = job.gate_count();
                *self = Session::Open(job.reopen());
                Ok(gates as u64)
            }
            other => {
                *self = other;
                Err(Refusal::WrongState)
            }
        }
    }

    // Gives a cell other values, and answers the cell.
    pub fn calibrate(&mut self, cell: u32, values: Calibration) -> Result<u64, Refusal>
        ensures answer { result ≡ call_answer (session_book self.old) (calibrate cell values) }
        ensures book { session_book self.new ≡ call_after (session_book self.old) (calibrate cell values) }
    {
        match self {
            Session::Closed(job) => Ok(job.calibrate(cell, values)? as u64),
            _ => Err(Refusal::WrongState),
        }
    }

    // Gives a label its home, and answers the label.
    pub fn place(&mut self, label: u32, cell: u32) -> Result<u64, Refusal>
        ensures answer { result ≡ call_answer (session_book self.old) (place label cell) }
        ensures book { session_book self.new ≡ call_after (session_book self.old) (place label cell) }
    {
        match self {
            Session::Closed(job) => Ok(job.place(label, cell)? as u64),
            _ => Err(Refusal::WrongState),
        }
    }

    // Gives a gate its start and choice, and answers the gate.
    pub fn time(&mut self, gate: u32, start: u32, choice: u32) -> Result<u64, Refusal>
        ensures answer { result ≡ call_answer (session_book self.old) (time gate start choice) }
        ensures book { session_book self.new ≡ call_after (session_book self.old) (time gate start choice) }
    {
        match self {
            Session::Closed(job) => Ok(job.time(gate, start, choice)? as u64),
            _ => Err(Refusal::WrongState),
        }
    }

    // What judging would answer if a gate had another start and choice.
    pub fn try_timing<R: RouteRule>(
        &mut self,
        rule: &R,
        gate: u32,
        start: u32,
        choice: u32,
    ) -> Result<u64, Refusal>
        ensures answer { result ≡ call_answer (session_book self.old) (try (R.RouteRule.route rule.now) gate start choice) }
        ensures book { session_book self.new ≡ call_after (session_book self.old) (try (R.RouteRule.route rule.now) gate start choice) }
    {
        match self {
            Session::Closed(job) => job.try_timing(rule, gate, start, choice),
            _ => Err(Refusal::WrongState),
        }
    }

    // What judging says.
    pub fn judge<R: RouteRule>(&mut self, rule: &R) -> Result<u64, Refusal>
        ensures answer { result ≡ call_answer (session_book self.old) (judge (R.RouteRule.route rule.now)) }
        ensures book { session_book self.new ≡ call_after (session_book self.old) (judge (R.RouteRule.route rule.now)) }
    {
        match self {
            Session::Closed(job) => job.judge(rule),
            _ => Err(Refusal::WrongState),
        }
    }
}
