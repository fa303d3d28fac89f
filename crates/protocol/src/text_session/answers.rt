ghost use Rattle.protocol.specs.TextSessions.{TextAnswered};
ghost use Rattle.protocol.specs.Beginnings.{beginning_answered};
ghost use Rattle.std.specs.Prelude.{◌≡◌, OnOk};
ghost use Rattle.std.specs.Io.KnownBytes.{Appends};
ghost use Rattle.session.specs.Sessions.{printed, reply_of};
ghost use Rattle.protocol.specs.TextSessions.{held_rows, RowsFit};

use crate::answer::Rows;
use crate::print::{print_entries, print_operations, print_reply};
use crate::text_session::TextSession;
use command::command::Command;
use command::read::read_command;
use dialogue::responder::Responder;
use refusal::Refusal;
use reply::reply::Reply;
use std::io;
use std::io::Write;

// The reply to the line with the number.
fn reply_to(number: u64, answer: Result<u64, Refusal>) -> Reply
    ensures { result ≡ reply_of number answer }
{
    match answer {
        Ok(value) => Reply::Ok(value),
        Err(refusal) => Reply::No(refusal, number),
    }
}

impl TextSession {
    // Prints the rows that stand in the places.
    fn print_rows<W: Write>(&self, rows: Rows, out: &mut W) -> io::Result<()>
        requires { RowsFit rows self.now.entries.items self.now.operations.items }
        ensures { OnOk result (Appends (W.contents out.old) (W.contents out.new) (printed (held_rows rows self.now.entries.items self.now.operations.items))) }
    {
        match rows {
            Rows::None => Ok(()),
            Rows::Entries(count) => print_entries(out, &self.entries[..count]),
            Rows::Operations(count) => print_operations(out, &self.operations[..count]),
        }
    }
}

impl Responder for TextSession {
    ghost answers = { TextAnswered };

    ghost beginning = { beginning_answered };

    fn answer<W: Write>(&mut self, number: u64, line: &[u8], out: &mut W) -> io::Result<()> {
        let command = match read_command(line) {
            Ok(command) => command,
            Err(refusal) => return print_reply(out, Reply::No(refusal, number)),
        };
        let answer = self.request(command);
        print_reply(out, reply_to(number, answer.number))?;
        self.print_rows(answer.rows, out)
    }
}
