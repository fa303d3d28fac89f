// The agenda and the listing of the job that there is.
ghost use Rattle.std.specs.Prelude.{◌≡◌, IfOk, length, take};
ghost use Rattle.book.specs.Calls.{agenda, list};
ghost use Rattle.session.specs.Sessions.{session_book, call_answer, entry_rows, operation_rows, call_rows, book_agenda, book_listing, rows_written};

use crate::session::Session;
use amplitude::amplitudes::AmplitudeRegister;
use circuit::operation::Operation;
use phase::phase_register::PhaseRegister;
use plan::gate::AgendaEntry;
use refusal::Refusal;
use route::rule::RouteRule;

impl Session {
    // Writes the agenda to the first places, and answers how many gates it has. All other places keep what they held, and where the call is refused all do.
    pub fn agenda(&self, places: &mut [AgendaEntry]) -> Result<usize, Refusal>
        ensures answer { result ≡ call_answer (session_book self.now) (agenda (length places.old)) }
        ensures written { places.new ≡ rows_written result (book_agenda (session_book self.now)) places.old }
        ensures rows { IfOk result (λ n. entry_rows (take n places.new) ≡ call_rows (session_book self.now) (agenda (length places.old))) }
        ensures length { length places.new ≡ length places.old }
    {
        match self {
            Session::Closed(job) => job.agenda(places),
            _ => Err(Refusal::WrongState),
        }
    }

    // Writes the listing under the rule to the first places, and answers how many operations it has. All other places keep what they held, and where the call is refused all do.
    pub fn list<R: RouteRule>(&self, rule: &R, places: &mut [Operation]) -> Result<usize, Refusal>
        ensures answer { result ≡ call_answer (session_book self.now) (list (R.RouteRule.route rule.now) (length places.old)) }
        ensures written { places.new ≡ rows_written result (book_listing (R.RouteRule.route rule.now) (session_book self.now)) places.old }
        ensures rows { IfOk result (λ n. operation_rows (take n places.new) ≡ call_rows (session_book self.now) (list (R.RouteRule.route rule.now) (length places.old))) }
        ensures length { length places.new ≡ length places.old }
    {
        match self {
            Session::Closed(job) => job.list::<R, AmplitudeRegister<'_>, PhaseRegister>(
                rule, places,
            ),
            _ => Err(Refusal::WrongState),
        }
    }
}
