ghost use Rattle.std.specs.Prelude.{◌≡◌, length};
ghost use Rattle.session.specs.Places.{agenda_places, listing_places};

use circuit::operation::Operation;
use plan::gate::AgendaEntry;
use session::session::Session;
use std::alloc::Global;

mod answers;
mod opening;
mod requests;

// A session that answers lines of text under the rule one-bend, with the memory that agendas and listings are written to.
#[derive(Drop)]
pub struct TextSession {
    heap: Global,
    session: Session,
    entries: Vec<AgendaEntry>,
    operations: Vec<Operation>,
    ghost agenda_room: { length entries.items ≡ agenda_places },
    ghost listing_room: { length operations.items ≡ listing_places },
}
