// Audits the entries and walks the volumes of standard input, and prints what comes back.
// The stored input and output were made by the independent implementation in `reference/`.

#![tactic(auto)]

use calls::{Entry, Stopped};
use std::io;
use tables::Question;

fn show_audited(rt: &impl Print, r: Result<Entry, Question>) -> io::Result<()> {
    cases::show_entry(rt, r)?;
    cases::show_line_end(rt)
}

fn show_walked(rt: &impl Print, r: Result<usize, Stopped>) -> io::Result<()> {
    match r {
        Ok(count) => cases::show_number(rt, b"count", count)?,
        Err(stopped) => {
            cases::show_refused(rt, tables::number(stopped.question))?;
            cases::show_number(rt, b"", stopped.passed)?;
        }
    }
    cases::show_line_end(rt)
}

fn call(rt: &impl Print, f: cases::Fields<'_>, bytes: &[u8]) -> io::Result<()> {
    match f.call {
        b'a' => show_audited(rt, audit::audit(bytes)),
        b'k' => show_walked(rt, volume::walk_volume(bytes, f.x)),
        _ => Ok(()),
    }
}

// A line, taken apart.
fn run(rt: &impl Print, line: &[u8]) -> io::Result<()> {
    let Some(f) = cases::take_apart(line) else {
        return Ok(());
    };
    let mut bytes = [0; cases::BUFFER_ROOM];
    let n = cases::hex_bytes(f.b, &mut bytes);
    call(rt, f, &bytes[..n])
}

fn main(rt: HostRuntime) -> io::Result<()> {
    cases::for_each_line(&mut rt.stdin(), |line| run(&rt, line))
}
