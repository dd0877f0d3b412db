// Reads the texts of standard input, one a line, and prints what comes back.
// The stored input and output were made by the independent implementation in `reference/`.

#![tactic(auto)]

use std::io;

// A line, taken apart: the text is all behind the eighth space. There is no call with a longer buffer than a program has room for.
fn run(rt: &impl Print, line: &[u8]) -> io::Result<()> {
    let Some(f) = cases::take_apart(line) else {
        return Ok(());
    };
    let mut room = [0; cases::BUFFER_ROOM];
    if let Some(out) = room.get_mut(..f.size) {
        cases::mark(out);
        let r = notation::read_text(f.unknowns, f.givens, f.b, out);
        cases::show_outcome(rt, r, out)?;
    }
    Ok(())
}

fn main(rt: HostRuntime) -> io::Result<()> {
    cases::for_each_line(&mut rt.stdin(), |line| run(&rt, line))
}
