// Replies printed, a line each.
ghost use Rattle.std.specs.Prelude.{OnOk};
ghost use Rattle.std.specs.Io.KnownBytes.{Appends};
ghost use Rattle.session.specs.Sessions.{printed, line_of, entry_rows, operation_rows};

use circuit::operation::Operation;
use plan::gate::AgendaEntry;
use reply::reply::Reply;
use reply::text::{PLACES, put_line};
use std::io;
use std::io::Write;

// Prints the line of a reply, which is put together in the places.
#[inline(always)]
fn print_line<W: Write>(reply: Reply, places: &mut [u8; PLACES], out: &mut W) -> io::Result<()>
    ensures { OnOk result (Appends (W.contents out.old) (W.contents out.new) (line_of reply)) }
{
    let start = put_line(reply, places);
    out.write_all(&places[start..])
}

// Prints a reply.
pub(crate) fn print_reply<W: Write>(out: &mut W, reply: Reply) -> io::Result<()>
    ensures { OnOk result (Appends (W.contents out.old) (W.contents out.new) (line_of reply)) }
{
    let mut places = [0; PLACES];
    print_line(reply, &mut places, out)
}

// Prints the rows of an agenda.
pub(crate) fn print_entries<W: Write>(out: &mut W, entries: &[AgendaEntry]) -> io::Result<()>
    ensures { OnOk result (Appends (W.contents out.old) (W.contents out.new) (printed (entry_rows entries.now))) }
{
    let mut places = [0; PLACES];
    for entry in entries {
        print_line(Reply::Entry(*entry), &mut places, out)?;
    }
    Ok(())
}

// Prints the rows of a listing.
pub(crate) fn print_operations<W: Write>(out: &mut W, operations: &[Operation]) -> io::Result<()>
    ensures { OnOk result (Appends (W.contents out.old) (W.contents out.new) (printed (operation_rows operations.now))) }
{
    let mut places = [0; PLACES];
    for operation in operations {
        print_line(Reply::Operation(*operation), &mut places, out)?;
    }
    Ok(())
}
