ghost use Rattle.std.specs.Prelude.{◌≡◌, []};
ghost use Rattle.rules.specs.Bends.{one_bend};
ghost use Rattle.book.specs.Calls.{agenda, list};
ghost use Rattle.session.specs.Places.{agenda_places, listing_places};
ghost use Rattle.session.specs.Sessions.{session_book, on_job, request_of, request_rows, rows_if_ok, Answered};
ghost use Rattle.protocol.specs.declared.answer.Rows.{Rows};
ghost use Rattle.protocol.specs.TextSessions.{held_rows, RowsFit};

use crate::answer::{Answer, Rows};
use crate::text_session::TextSession;
use command::command::Command;
use refusal::Refusal;
use rules::one_bend::OneBend;

// An answer that no rows follow.
fn without_rows(number: Result<u64, Refusal>) -> Answer
    ensures number { result.number ≡ number }
    ensures rows { result.rows ≡ Rows.None }
{
    Answer {
        number,
        rows: Rows::None,
    }
}

impl TextSession {
    #[tactic(auto, using(crate::proofs::Listing::agenda_keeps))]
    // Answers the command for the agenda.
    fn agenda(&mut self) -> Answer
        ensures answered { Answered (session_book self.old.session) (on_job (agenda agenda_places)) (session_book self.new.session) result.number }
        ensures rows { rows_if_ok result.number (request_rows (session_book self.old.session) (on_job (agenda agenda_places))) ≡ held_rows result.rows self.new.entries.items self.new.operations.items }
        ensures fit { RowsFit result.rows self.new.entries.items self.new.operations.items }
    {
        match self.session.agenda(&mut self.entries) {
            Ok(count) => Answer {
                number: Ok(count as u64),
                rows: Rows::Entries(count),
            },
            Err(refusal) => without_rows(Err(refusal)),
        }
    }

    #[tactic(auto, using(crate::proofs::Listing::list_keeps))]
    // Answers the command for the listing.
    fn list(&mut self) -> Answer
        ensures answered { Answered (session_book self.old.session) (on_job (list one_bend listing_places)) (session_book self.new.session) result.number }
        ensures rows { rows_if_ok result.number (request_rows (session_book self.old.session) (on_job (list one_bend listing_places))) ≡ held_rows result.rows self.new.entries.items self.new.operations.items }
        ensures fit { RowsFit result.rows self.new.entries.items self.new.operations.items }
    {
        match self.session.list(&OneBend, &mut self.operations) {
            Ok(count) => Answer {
                number: Ok(count as u64),
                rows: Rows::Operations(count),
            },
            Err(refusal) => without_rows(Err(refusal)),
        }
    }

    // Does what the command says, and answers it. Rows stand in the places of the session.
    pub(crate) fn request(&mut self, command: Command) -> Answer
        ensures answered { Answered (session_book self.old.session) (request_of one_bend command) (session_book self.new.session) result.number }
        ensures rows { rows_if_ok result.number (request_rows (session_book self.old.session) (request_of one_bend command)) ≡ held_rows result.rows self.new.entries.items self.new.operations.items }
        ensures fit { RowsFit result.rows self.new.entries.items self.new.operations.items }
    {
        let session = &mut self.session;
        match command {
            Command::Open {
                columns,
                rows,
                labels,
            } => without_rows(session.open(self.heap, columns, rows, labels)),
            Command::Add { letter, one, two } => without_rows(session.add(letter, one, two)),
            Command::Close => without_rows(session.close()),
            Command::Reopen => without_rows(session.reopen()),
            Command::Calibrate { cell, values } => without_rows(session.calibrate(cell, values)),
            Command::Place { label, cell } => without_rows(session.place(label, cell)),
            Command::Time {
                gate,
                start,
                choice,
            } => without_rows(session.time(gate, start, choice)),
            Command::Try {
                gate,
                start,
                choice,
            } => without_rows(session.try_timing(&OneBend, gate, start, choice)),
            Command::Judge => without_rows(session.judge(&OneBend)),
            Command::Agenda => self.agenda(),
            Command::List => self.list(),
        }
    }
}
