// Writes and reads the entries of standard input, and prints what comes back.
// The stored input and output were made by the independent implementation in `reference/`.

#![tactic(auto)]

use calls::Entry;
use std::io;
use tables::Question;

fn show_written(rt: &impl Print, r: Result<usize, Question>, out: &[u8]) -> io::Result<()> {
    match r {
        Ok(length) => cases::show_number(rt, b"done", length)?,
        Err(question) => cases::show_refused(rt, tables::number(question))?,
    }
    cases::show_hex(rt, out)?;
    cases::show_line_end(rt)
}

fn show_read(
    rt: &impl Print,
    r: Result<Entry, Question>,
    order: [u8; 6],
    fact: &[u8],
    condition: &[u8],
    answers: &[u8],
) -> io::Result<()> {
    cases::show_entry(rt, r)?;
    cases::show_hex(rt, &order)?;
    cases::show_digits(rt, fact)?;
    cases::show_digits(rt, condition)?;
    cases::show_digits(rt, answers)?;
    cases::show_line_end(rt)
}

// One call on buffers of the stated lengths. There is none with a longer buffer than a program has room for.
fn write(rt: &impl Print, f: cases::Fields<'_>) -> io::Result<()> {
    let mut a = [0; cases::BUFFER_ROOM];
    let mut b = [0; cases::BUFFER_ROOM];
    let mut room = [0; cases::BUFFER_ROOM];
    let order = cases::order(f.order);
    let na = cases::digits(f.a, &mut a);
    let nb = cases::digits(f.b, &mut b);
    if let Some(out) = room.get_mut(..f.size) {
        cases::mark(out);
        let r = writer::write_entry(f.x, f.unknowns, f.givens, order, &a[..na], &b[..nb], out);
        show_written(rt, r, out)?;
    }
    Ok(())
}

fn read(rt: &impl Print, f: cases::Fields<'_>) -> io::Result<()> {
    let mut bytes = [0; cases::BUFFER_ROOM];
    let mut facts = [0; cases::BUFFER_ROOM];
    let mut conditions = [0; cases::BUFFER_ROOM];
    let mut room = [0; cases::BUFFER_ROOM];
    let mut order = [7u8; 6];
    let n = cases::hex_bytes(f.b, &mut bytes);
    if let Some(fact) = facts.get_mut(..f.x)
        && let Some(condition) = conditions.get_mut(..f.size)
        && let Some(answers) = room.get_mut(..f.size2)
    {
        cases::mark(fact);
        cases::mark(condition);
        cases::mark(answers);
        let r = reader::read_entry(&bytes[..n], &mut order, fact, condition, answers);
        show_read(rt, r, order, fact, condition, answers)?;
    }
    Ok(())
}

// A line, taken apart.
fn run(rt: &impl Print, line: &[u8]) -> io::Result<()> {
    match cases::take_apart(line) {
        Some(f) if f.call == b'w' => write(rt, f),
        Some(f) if f.call == b'r' => read(rt, f),
        _ => Ok(()),
    }
}

fn main(rt: HostRuntime) -> io::Result<()> {
    cases::for_each_line(&mut rt.stdin(), |line| run(&rt, line))
}
