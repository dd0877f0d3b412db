// Plays the sessions of standard input, and prints for each step what it answers and the session after it.
// A line is `s U G`, `a 0 0 0 0 0 0 TABLE`, `m 0 0 NAME` or `r 0 0 NAME`, for starting, adding, marking and returning, or
// `d WHICH PLACE BYTE`, which prints nothing: the caller changes the session, so that the next step may be handed one that no step makes.
// The stored input and output were made by the independent implementation in `reference/`.

#![tactic(auto)]

use session::{Mark, Session, Step};
use std::io;

// The largest prime below 2^32: a sum is a u32, and the product with 31 fits.
const MODULUS: u64 = 4294967291;

fn with_byte(sum: u32, byte: u8) -> u32 {
    ((sum as u64 * 31 + byte as u64) % MODULUS) as u32
}

fn with_bytes(sum: u32, bytes: &[u8]) -> u32 {
    bytes.iter().fold(sum, |sum, byte| with_byte(sum, *byte))
}

fn with_mark(sum: u32, mark: &Mark) -> u32 {
    with_bytes(with_byte(sum, u8::from(mark.set)), &mark.table)
}

// Over every byte of every table, and the marks: a step is seen that changes what it should leave alone, as bytes behind 2^n.
fn checksum(s: &Session) -> u32 {
    s.marks.iter().fold(with_bytes(0, &s.table), with_mark)
}

fn show_marks(rt: &impl Print, s: &Session) -> io::Result<()> {
    cases::show_digits(rt, &s.marks.map(|mark| u8::from(mark.set)))
}

// The present table, if the letters say how long it is.
#[tactic(auto, using(tables::proofs::Questions::letters_small))]
fn show_table(rt: &impl Print, s: &Session) -> io::Result<()> {
    if !tables::letters_fit(s.unknowns, s.givens) {
        return cases::show_digits(rt, b"");
    }
    let k = tables::pow2(s.unknowns + s.givens);
    cases::show_digits(rt, s.table.get(..k).unwrap_or(b""))
}

// The session after the step is handed on, for the next line.
fn show(rt: &impl Print, step: Step) -> io::Result<Session> {
    cases::show_done(rt, step.outcome)?;
    let s = step.session;
    cases::show_number(rt, b"", s.unknowns)?;
    cases::show_number(rt, b"", s.givens)?;
    cases::show_number(rt, b"", checksum(&s) as usize)?;
    show_marks(rt, &s)?;
    show_table(rt, &s)?;
    cases::show_line_end(rt)?;
    Ok(s)
}

// At a place behind the table's end nothing is changed.
fn put(table: &mut [u8], place: usize, byte: u8) {
    if let Some(b) = table.get_mut(place) {
        *b = byte;
    }
}

// `which` is 0 for U, 1 for G, 2 for the present table, 3 to 6 for the tables of `A` to `D`, 7 to 10 for whether these are marked.
fn change(s: &mut Session, which: usize, place: usize, byte: u8) {
    match which {
        0 => s.unknowns = place,
        1 => s.givens = place,
        2 => put(&mut s.table, place, byte),
        3..=6 => put(&mut s.marks[which - 3].table, place, byte),
        7..=10 => s.marks[which - 7].set = byte == 1,
        _ => {}
    }
}

fn add(s: Session, field: &[u8]) -> Step {
    let mut table = [0; cases::BUFFER_ROOM];
    let n = cases::digits(field, &mut table);
    s.add(&table[..n])
}

// The session after a line.
fn play(rt: &impl Print, s: Session, line: &[u8]) -> io::Result<Session> {
    let Some(f) = cases::take_apart(line) else {
        return Ok(s);
    };
    match f.call {
        b's' => show(rt, Session::start(f.unknowns, f.givens)),
        b'a' => show(rt, add(s, f.a)),
        b'm' => show(rt, s.mark(f.x)),
        b'r' => show(rt, s.return_to(f.x)),
        b'd' => {
            let mut changed = s;
            change(&mut changed, f.unknowns, f.givens, (f.x % 256) as u8);
            Ok(changed)
        }
        _ => Ok(s),
    }
}

fn main(rt: HostRuntime) -> io::Result<()> {
    let mut s = Session::start(0, 0).session;
    cases::for_each_line(&mut rt.stdin(), |line| {
        s = play(&rt, s, line)?;
        Ok(())
    })
}
