// Runs the calls value, sum, product, substitute and derivative, and those for the shorter of two answer tables, on the cases of standard input
// and prints what comes back.
// The stored input and output were made by the independent implementation in `reference/`.

#![tactic(auto)]

use calls::Formula;
use std::io;
use tables::Question;

fn show_value(rt: &impl Print, r: Result<u8, Question>) -> io::Result<()> {
    match r {
        Ok(value) => cases::show_number(rt, b"value", usize::from(value))?,
        Err(question) => cases::show_refused(rt, tables::number(question))?,
    }
    cases::show_line_end(rt)
}

fn show_which(rt: &impl Print, r: Result<Formula, Question>) -> io::Result<()> {
    match r {
        Ok(Formula::Boole) => rt.write_all(b"boole"),
        Ok(Formula::Lowenheim) => rt.write_all(b"lowenheim"),
        Err(question) => cases::show_refused(rt, tables::number(question)),
    }
}

// Which table it is, what the companion call says, and the length and the bytes of the part handed back. The tables have one lifetime, since the
// part may be of either.
fn show_shorter<'a>(
    rt: &impl Print,
    u: usize,
    g: usize,
    boole: &'a [u8],
    lowenheim: &'a [u8],
) -> io::Result<()> {
    show_which(rt, shorter::which_shorter(u, g, boole, lowenheim))?;
    let number = shorter::shorter_refusal(u, g, boole, lowenheim);
    cases::show_number(rt, b"", usize::from(number))?;
    let part = shorter::shorter(u, g, boole, lowenheim);
    cases::show_number(rt, b"", part.len())?;
    cases::show_digits(rt, part)?;
    cases::show_line_end(rt)
}

// One call on buffers of the stated lengths.
fn call<'a>(
    rt: &impl Print,
    f: cases::Fields<'_>,
    a: &'a [u8],
    b: &'a [u8],
    out: &mut [u8],
) -> io::Result<()> {
    match f.call {
        b'v' => show_value(
            rt,
            operations::value(f.unknowns, f.givens, a, ring::State(f.x), ring::Choice(f.y)),
        ),
        b'+' => {
            let r = operations::sum(f.unknowns, f.givens, a, b, out);
            cases::show_counted(rt, r, out)
        }
        b'*' => {
            let r = operations::product(f.unknowns, f.givens, a, b, out);
            cases::show_counted(rt, r, out)
        }
        b's' => {
            let r = operations::substitute(f.unknowns, f.givens, a, b, out);
            cases::show_counted(rt, r, out)
        }
        b'd' => {
            let r = operations::derivative(f.unknowns, f.givens, a, f.x, out);
            cases::show_outcome(rt, r, out)
        }
        b'm' => show_shorter(rt, f.unknowns, f.givens, a, b),
        _ => Ok(()),
    }
}

// One call on buffers of its own. There is none with a longer buffer than a program has room for. The buffers come first: behind a branch they
// would be cleared twice.
fn lend(rt: &impl Print, f: cases::Fields<'_>) -> io::Result<()> {
    let mut a = [0; cases::BUFFER_ROOM];
    let mut b = [0; cases::BUFFER_ROOM];
    let mut room = [0; cases::BUFFER_ROOM];
    let na = cases::digits(f.a, &mut a);
    let nb = cases::digits(f.b, &mut b);
    if let Some(out) = room.get_mut(..f.size) {
        cases::mark(out);
        call(rt, f, &a[..na], &b[..nb], out)?;
    }
    Ok(())
}

// A line, taken apart.
fn run(rt: &impl Print, line: &[u8]) -> io::Result<()> {
    match cases::take_apart(line) {
        Some(f) => lend(rt, f),
        None => Ok(()),
    }
}

fn main(rt: HostRuntime) -> io::Result<()> {
    cases::for_each_line(&mut rt.stdin(), |line| run(&rt, line))
}
