// Solves the conditions of standard input by every call, and prints what comes back.
// The stored input and output were made by the independent implementation in `reference/`.

#![tactic(auto)]

use calls::Unsolved;
use std::io;

fn show_solving(rt: &impl Print, r: Result<usize, Unsolved>, answers: &[u8]) -> io::Result<()> {
    match r {
        Ok(monomials) => cases::show_number(rt, b"done", monomials)?,
        Err(Unsolved::None(state)) => cases::show_number(rt, b"none", state.0)?,
        Err(Unsolved::Refused(question)) => cases::show_refused(rt, tables::number(question))?,
    }
    cases::show_digits(rt, answers)?;
    cases::show_line_end(rt)
}

// One call on buffers of the stated lengths.
fn call(
    rt: &impl Print,
    f: cases::Fields<'_>,
    order: [u8; 6],
    fact: &[u8],
    condition: &[u8],
    handed: &[u8],
    answers: &mut [u8],
) -> io::Result<()> {
    match f.call {
        b'b' => {
            let r = solver::boole(f.unknowns, f.givens, order, fact, condition, answers);
            show_solving(rt, r, answers)
        }
        b'p' => {
            let r = solver::particular(f.unknowns, f.givens, order, fact, condition, answers);
            show_solving(rt, r, answers)
        }
        b'l' => {
            let r = solver::lowenheim(f.unknowns, f.givens, order, fact, condition, answers);
            show_solving(rt, r, answers)
        }
        b'h' => {
            let r = solver::lowenheim_handed(
                f.unknowns, f.givens, fact, condition, handed, answers,
            );
            cases::show_counted(rt, r, answers)
        }
        _ => Ok(()),
    }
}

// One call on buffers of its own. The handed form takes no order: the handed polynomials stand in its place. There is no call with a longer
// buffer than a program has room for. The buffers come first: behind a branch they would be cleared twice.
fn lend(rt: &impl Print, f: cases::Fields<'_>) -> io::Result<()> {
    let mut a = [0; cases::BUFFER_ROOM];
    let mut b = [0; cases::BUFFER_ROOM];
    let mut h = [0; cases::BUFFER_ROOM];
    let mut room = [0; cases::BUFFER_ROOM];
    let order = cases::order(f.order);
    let na = cases::digits(f.a, &mut a);
    let nb = cases::digits(f.b, &mut b);
    let nh = cases::digits(f.order, &mut h);
    if let Some(out) = room.get_mut(..f.size) {
        cases::mark(out);
        call(rt, f, order, &a[..na], &b[..nb], &h[..nh], out)?;
    }
    Ok(())
}

// A line, taken apart.
fn run(rt: &impl Print, line: &[u8]) -> io::Result<()> {
    match cases::take_apart(line) {
        Some(f) => lend(rt, f),
        None => Ok(()),
    }
}

fn main(rt: HostRuntime) -> io::Result<()> {
    cases::for_each_line(&mut rt.stdin(), |line| run(&rt, line))
}
