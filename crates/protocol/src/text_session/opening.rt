ghost use Rattle.std.specs.Prelude.{◌≡◌, IfOk, None};
ghost use Rattle.session.specs.Sessions.{session_book};

use crate::text_session::TextSession;
use circuit::action::Action;
use circuit::operation::Operation;
use plan::gate::AgendaEntry;
use session::session::Session;
use std::alloc::{AllocError, Global};

impl TextSession {
    // A session with no job yet.
    pub fn new(heap: Global) -> Result<TextSession, AllocError>
        ensures { IfOk result (λ t. session_book t.session ≡ None) }
    {
        let entry = AgendaEntry { start: 0, gate: 0 };
        let operation = Operation {
            start: 0,
            length: 0,
            action: Action::Cnot(0, 0),
            gate: 0,
        };
        Ok(TextSession {
            heap,
            session: Session::NoJob,
            entries: vec![in heap; entry; 256]?,
            operations: vec![in heap; operation; 4000]?,
        })
    }
}
