// The job program: reads commands from standard input, a line each, and prints what each is answered.
#![tactic(auto)]

use dialogue::serve::serve;
use protocol::text_session::TextSession;
use std::io;
use std::io::BufWriter;

fn main(rt: HostRuntime) -> io::Result<()> {
    let mut session = TextSession::new(rt.alloc())?;
    let mut out = BufWriter::with_capacity(rt.alloc(), 16384, io::writer(&rt))?;
    serve(rt.reader(), &mut out, &mut session)
}
