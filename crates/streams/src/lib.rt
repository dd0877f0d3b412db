// Reading and writing for the programs: a call that a signal interrupted is made again, one for which nothing is ready yet is made again
// after a pause, and a write that took only a part goes on. A read that fails otherwise is told apart from the end of the input.
// No contract can say which bytes the system reads or writes.

#![tactic(auto)]

ghost use Rattle.std.specs.Prelude.{◌≤◌, length, IfOk};

use std::fmt::Display;
use std::io::{ErrorKind, Read, Write};
use std::rt::Clock;
use std::time::Duration;
use std::{io, thread};

// Waits for a two-hundredth of a second, so that waiting takes no processor time.
fn pause(clock: &impl Clock) {
    thread::sleep(clock, Duration::from_millis(5));
}

// Whether the call that failed so is to be made again: a signal interrupted it, or nothing was ready, and then only after a pause.
fn again(clock: &impl Clock, error: &io::Error) -> bool {
    match error.kind() {
        ErrorKind::Interrupted => true,
        ErrorKind::WouldBlock => {
            pause(clock);
            true
        }
        _ => false,
    }
}

// What a call fails with that was made as often as a loop can go.
fn too_often() -> io::Error {
    io::Error::from(ErrorKind::TimedOut)
}

// Reads once, at the front of `room`, and answers how many bytes it read, 0 at the end of the input. A proved loop has to end, so the turns
// are counted, up to a number that no run uses up. `write_some` has the same loop: with the call as a closure, the contract would have to
// follow the lent room from call to call.
pub fn read_some<C: Clock, R: Read>(clock: &C, file: &mut R, room: &mut [u8]) -> io::Result<usize>
    ensures { IfOk result (λ n. n ≤ length room.old) }
{
    for _ in 0..u64::MAX {
        match file.read(room) {
            Err(e) if again(clock, &e) => {}
            result => return result,
        }
    }
    Err(too_often())
}

// Writes once, from the front of `bytes`, and answers how many it took: an output that takes nothing more is an error.
fn write_some<C: Clock, W: Write>(clock: &C, file: &mut W, bytes: &[u8]) -> io::Result<usize>
    ensures { IfOk result (λ n. n ≤ length bytes.now) }
{
    for _ in 0..u64::MAX {
        match file.write(bytes) {
            Err(e) if again(clock, &e) => {}
            result => return result,
        }
    }
    Err(too_often())
}

// Writes all of `bytes`, or fails where the output takes nothing more.
pub fn write_whole<C: Clock, W: Write>(clock: &C, file: &mut W, bytes: &[u8]) -> io::Result<()> {
    let mut rest = bytes;
    // A write says how many bytes were taken.
    while !rest.is_empty() {
        match write_some(clock, file, rest)? {
            0 => return Err(io::Error::from(ErrorKind::WriteZero)),
            n => rest = &rest[n..],
        }
    }
    Ok(())
}

// Writes a line to standard error: what failed, as the caller names it, a colon and why.
pub fn complain(rt: &impl Eprint, what: &str, error: &impl Display) {
    let _ = eprintln!(rt; "{what}: {error}");
}
