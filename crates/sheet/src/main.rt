// Reads a sheet from standard input and prints, line by line, the records of each entry, or why there is none.
// What is printed is worked out by `sheet_lines`; this program only reads and writes. The input comes in pieces of up to 65,536 bytes and
// the output goes in pieces of up to 262,144, so that a sheet of any length takes the same memory. A read that fails is no end of the
// input: the line that has begun is not answered, and standard error says why. The stored sheet has the sample of document 01, every
// refusal, every kind of unreadable line, and a good line across each end of a read; its output was made by the independent
// implementation in `reference/`.
//
// Proved, over the bytes that stand in the room after a read: all of what the read gave is printed or carried, as `sheet_lines` says, and
// after a failure nothing more is; and of a run that ends, that it has written as many bytes as `sheet` prints for some input of as many
// bytes as were read. Left to a reader, since no contract speaks of what the system reads or writes: that the bytes in the room are
// those of the input (`streams::read_some`), and that the bytes handed over reach the output, once (`streams::write_whole`).

#![tactic(auto)]

ghost use Rattle.std.specs.Prelude.{◌≡◌, ◌+◌, ◌-◌, ◌≤◌, length, IfOk};
ghost use Rattle.sheet_lines.specs.Inner.Feeding.{line_room};
ghost use Rattle.sheet.specs.Running.{Advances, Takes, Steps, Ran};

use sheet_lines::Printer;
use std::io;
use std::io::{Read, Write};
use std::rt::Clock;
use thiserror::Error;

const INPUT_ROOM: usize = 65536;

const OUTPUT_ROOM: usize = 262144;

// How far a run has come: how many bytes were read and written.
#[derive(Clone, Copy)]
struct Progress {
    read: usize,
    written: usize,
}

// Why a run stops before the end of its input. No run comes to more bytes than can be counted.
#[derive(Clone, Copy, Debug, Error)]
enum Failure {
    #[error("standard input: {0}")]
    Input(io::Error),
    #[error("standard output: {0}")]
    Output(io::Error),
    #[error("more bytes than can be counted")]
    Uncounted,
}

// Writes `bytes`, behind `written` bytes, and answers how many are written then.
fn write_out<C: Clock, W: Write>(
    clock: &C,
    sink: &mut W,
    bytes: &[u8],
    written: usize,
) -> Result<usize, Failure>
    ensures { IfOk result (λ total. total ≡ written + length bytes.now) }
{
    let total = written.checked_add(bytes.len()).ok_or(Failure::Uncounted)?;
    streams::write_whole(clock, sink, bytes).map_err(Failure::Output)?;
    Ok(total)
}

// Prints a piece of the input, as many lines at a time as `out` has room for.
fn print_piece<C: Clock, W: Write>(
    clock: &C,
    sink: &mut W,
    piece: &[u8],
    printer: &mut Printer,
    out: &mut [u8],
    before: Progress,
) -> Result<Progress, Failure>
    requires { line_room ≤ length out.old }
    ensures { IfOk result (λ after. Advances before printer.old piece.now after printer.new) }
{
    let read = before
        .read
        .checked_add(piece.len())
        .ok_or(Failure::Uncounted)?;
    let mut written = before.written;
    let mut rest = piece;
    // As far as there is room for what is printed, over and over.
    while !rest.is_empty() {
        let fed = printer.feed(rest, out, 0);
        written = write_out(clock, sink, &out[..fed.next], written)?;
        rest = &rest[fed.used..];
    }
    Ok(Progress { read, written })
}

// Takes what a read gave: bytes are printed, the end leaves the line that has begun to `run`, and after a failure it is never answered.
fn take_got<C: Clock, W: Write>(
    clock: &C,
    sink: &mut W,
    got: io::Result<usize>,
    input: &[u8],
    printer: &mut Printer,
    out: &mut [u8],
    before: Progress,
) -> Result<Option<Progress>, Failure>
    requires { IfOk got (λ n. n ≤ length input.now) × (line_room ≤ length out.old) }
    ensures { IfOk result (λ step. Takes got input.now before printer.old step printer.new) }
{
    match got.map_err(Failure::Input)? {
        0 => Ok(None),
        n => Ok(Some(print_piece(clock, sink, &input[..n], printer, out, before)?)),
    }
}

// Reads a piece and takes it. There is none at the end of the input.
fn read_piece<C: Clock, R: Read, W: Write>(
    clock: &C,
    source: &mut R,
    sink: &mut W,
    input: &mut [u8],
    printer: &mut Printer,
    out: &mut [u8],
    before: Progress,
) -> Result<Option<Progress>, Failure>
    requires { line_room ≤ length out.old }
    ensures { IfOk result (λ step. Steps input.new before printer.old step printer.new) }
{
    let got = streams::read_some(clock, source, input);
    take_got(clock, sink, got, input, printer, out, before)
}

// Reads and prints to the end of the input.
fn run<C: Clock, R: Read, W: Write>(
    clock: &C,
    source: &mut R,
    sink: &mut W,
) -> Result<Progress, Failure>
    ensures { IfOk result (λ end. Ran end.read end.written) }
{
    let mut input = [0; INPUT_ROOM];
    let mut out = [0; OUTPUT_ROOM];
    let mut printer = Printer::new();
    let mut progress = Progress {
        read: 0,
        written: 0,
    };
    while let Some(next) = read_piece(
        clock,
        source,
        sink,
        &mut input,
        &mut printer,
        &mut out,
        progress,
    )? {
        progress = next;
    }
    let n = printer.finish(&mut out, 0);
    let written = write_out(clock, sink, &out[..n], progress.written)?;
    Ok(Progress {
        read: progress.read,
        written,
    })
}

fn main(rt: HostRuntime) {
    if let Err(failure) = run(&rt, &mut rt.stdin(), &mut rt.stdout()) {
        streams::complain(&rt, "sheet", &failure);
    }
}
