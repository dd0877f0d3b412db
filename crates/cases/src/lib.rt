// Support for the test programs: the lines of the input, the fields of a line that describes a call, and printing what came back.
// A line is `CALL U G X Y SIZE SIZE2 A B`, one space between the fields; A and B are bytes, a digit each, or `-` for none.
// Where a call takes an order, Y is its six bytes, two hexadecimal digits each; of the handed form it is the handed polynomials, a digit
// each. Where a call takes a fact, A is the fact and B the condition; where it fills one, X is the length of its buffer. Of the shorter of two
// answer tables A is Boole's and B Löwenheim's.
// Those that print promise nothing, since no contract says what standard output receives: what is printed is compared with stored output.
// A write or a read that fails is handed up as the error, and ends the program. Nothing is on the heap.

#![tactic(auto)]

ghost use Rattle.std.specs.Prelude.{◌≡◌, ℕ, ◌<◌, ◌≤◌, ◌↔◌, List, length, replicate, Ok, IfOk, OnOk, IsSome};
ghost use Rattle.cases.specs.Lines.{RunsEachLine};

use calls::{Entry, Heading, Verdict};
use std::io;
use std::io::Read;
use tables::Question;

// Every byte of a result buffer is 7 before a call, so that one that the call should leave alone is seen.
const MARK: u8 = 7;

// So many bytes of the input are read at most, which is room for all cases of a program.
const INPUT_ROOM: usize = 262144;

// So many bytes a buffer of a call has at most.
pub const BUFFER_ROOM: usize = 65536;

// Reads until the buffer is full or the input ends; answers how many bytes it put at the front of `buffer`.
pub fn read_full(input: &mut impl Read, buffer: &mut [u8]) -> io::Result<usize>
    ensures { IfOk result (λ n. n ≤ length buffer.new) }
{
    let mut done: usize = 0;
    // A read says how many bytes came, and none at the end.
    while done < buffer.len() {
        match input.read(&mut buffer[done..])? {
            0 => break,
            n => done += n,
        }
    }
    Ok(done)
}

// Runs each line of the input, which is read first.
pub fn for_each_line<R: Read, F: FnMut(&[u8]) -> io::Result<()>>(
    input: &mut R,
    run: F,
) -> io::Result<()>
    requires { F.IsAlwaysCallable run }
    ensures { OnOk result ((bytes : List ℕ) × (length bytes ≤ 262144) × RunsEachLine F.FnMut run (Ok tt) bytes) }
{
    let mut bytes = [0; INPUT_ROOM];
    let n = read_full(input, &mut bytes)?;
    bytes[..n].split(|byte| *byte == b'\n').try_for_each(run)
}

// The fields of a line: numbers, and the line from where the order and the last two fields start, since what reads these finds their ends.
#[derive(Clone, Copy)]
pub struct Fields<'a> {
    pub call: u8,
    pub unknowns: usize,
    pub givens: usize,
    pub x: usize,
    pub y: usize,
    pub order: &'a [u8],
    pub size: usize,
    pub size2: usize,
    pub a: &'a [u8],
    pub b: &'a [u8],
}

// The line behind its first space, nothing if it has none.
fn next_field(line: &[u8]) -> &[u8] {
    line.splitn(2, |byte| *byte == b' ').nth(1).unwrap_or(b"")
}

// The decimal number at the front of a field, modulo 2^64, and 0 where there is no digit.
fn number(field: &[u8]) -> usize {
    field
        .iter()
        .map_while(|byte| char::from(*byte).to_digit(10))
        .fold(
            0,
            |n: usize, digit| n.wrapping_mul(10).wrapping_add(digit as usize),
        )
}

// The fields of a line, if it is not empty. Those that it lacks are empty, and the last is all that is left.
pub fn take_apart(line: &[u8]) -> Option<Fields<'_>>
    ensures { IsSome result ↔ (0 < length line.now) }
{
    let call = *line.first()?;
    let unknowns = next_field(line);
    let givens = next_field(unknowns);
    let x = next_field(givens);
    let order = next_field(x);
    let size = next_field(order);
    let size2 = next_field(size);
    let a = next_field(size2);
    let b = next_field(a);
    Some(Fields {
        call,
        unknowns: number(unknowns),
        givens: number(givens),
        x: number(x),
        y: number(order),
        order,
        size: number(size),
        size2: number(size2),
        a,
        b,
    })
}

// The bytes of a field, a digit each, `-` for none, as many as there is room for, at the front of `out`; answers how many there are.
pub fn digits(field: &[u8], out: &mut [u8]) -> usize
    ensures { result ≤ length out.new }
{
    let mut n = 0;
    for digit in field {
        if *digit < b'0' || out.len() <= n {
            break;
        }
        out[n] = *digit - b'0';
        n += 1;
    }
    n
}

// Makes every byte of a result buffer 7, before a call.
pub fn mark(buffer: &mut [u8])
    ensures { buffer.new ≡ replicate (length buffer.old) 7 }
{
    buffer.fill(MARK);
}

fn digit_of(byte: u8) -> u8 {
    if byte < 10 { b'0' + byte } else { b'?' }
}

// A space, the buffer's bytes as digits, `-` for an empty one. One that is too long is not shown.
pub fn show_digits(rt: &impl Print, buffer: &[u8]) -> io::Result<()> {
    rt.write_all(b" ")?;
    if buffer.is_empty() {
        return rt.write_all(b"-");
    }
    let mut text = [0; 65536];
    for (place, byte) in text.iter_mut().zip(buffer) {
        *place = digit_of(*byte);
    }
    rt.write_all(text.get(..buffer.len()).unwrap_or(b""))
}

fn hex_digit(n: u8) -> u8 {
    if n < 10 {
        b'0' + n
    } else if n < 16 {
        b'a' - 10 + n
    } else {
        b'?'
    }
}

// A space, the buffer's bytes as two hexadecimal digits each, `-` for an empty one. One that is too long is not shown. As `show_digits`, with
// two places for a byte, so that each has its own room.
pub fn show_hex(rt: &impl Print, buffer: &[u8]) -> io::Result<()> {
    rt.write_all(b" ")?;
    if buffer.is_empty() {
        return rt.write_all(b"-");
    }
    let mut text = [[0; 2]; 32768];
    for (place, byte) in text.iter_mut().zip(buffer) {
        *place = [hex_digit(*byte / 16), hex_digit(*byte % 16)];
    }
    rt.write_all(text.get(..buffer.len()).unwrap_or(&[]).as_flattened())
}

fn from_hex(digit: u8) -> u8
    ensures { result < 16 }
{
    match digit {
        b'0'..=b'9' => digit - b'0',
        b'a'..=b'f' => digit - b'a' + 10,
        _ => 0,
    }
}

fn hex_byte(pair: &[u8; 2]) -> u8 {
    let [high, low] = *pair;
    16 * from_hex(high) + from_hex(low)
}

// The bytes of a field, two hexadecimal digits each, `-` for none, as many as there is room for, at the front of `out`; answers how many there
// are. A pair whose first byte is below '0', as a space, stands behind the field.
pub fn hex_bytes(field: &[u8], out: &mut [u8]) -> usize
    ensures { result ≤ length out.new }
{
    let mut n = 0;
    for pair in field.as_chunks().0 {
        if pair[0] < b'0' || out.len() <= n {
            break;
        }
        out[n] = hex_byte(pair);
        n += 1;
    }
    n
}

// The order that a field is.
pub fn order(field: &[u8]) -> [u8; 6] {
    let mut order = [MARK; 6];
    hex_bytes(field, &mut order);
    order
}

// A word, and a number behind it.
pub fn show_number(rt: &impl Print, word: &[u8], n: usize) -> io::Result<()> {
    rt.write_all(word)?;
    rt.write_all(b" ")?;
    rt.print(n)
}

pub fn show_refused(rt: &impl Print, number: u8) -> io::Result<()> {
    rt.write_all(b"refused ")?;
    rt.print(number)
}

pub fn show_line_end(rt: &impl Print) -> io::Result<()> {
    rt.write_all(b"\n")
}

// What a call answers that gives no value of its own.
pub fn show_done(rt: &impl Print, r: Result<(), Question>) -> io::Result<()> {
    match r {
        Ok(()) => rt.write_all(b"done"),
        Err(question) => show_refused(rt, tables::number(question)),
    }
}

// The same, and the buffer behind it.
pub fn show_outcome(rt: &impl Print, r: Result<(), Question>, buffer: &[u8]) -> io::Result<()> {
    show_done(rt, r)?;
    show_digits(rt, buffer)?;
    show_line_end(rt)
}

// What a call answers that counts the monomials of its result, and the buffer behind it.
pub fn show_counted(rt: &impl Print, r: Result<usize, Question>, buffer: &[u8]) -> io::Result<()> {
    match r {
        Ok(monomials) => show_number(rt, b"done", monomials)?,
        Err(question) => show_refused(rt, tables::number(question))?,
    }
    show_digits(rt, buffer)?;
    show_line_end(rt)
}

// What an entry says that was read or audited: its verdict, and its heading's numbers.
pub fn show_entry(rt: &impl Print, r: Result<Entry, Question>) -> io::Result<()> {
    match r {
        Ok(held) => {
            show_verdict(rt, held.verdict)?;
            show_heading(rt, held.heading)
        }
        Err(question) => show_refused(rt, tables::number(question)),
    }
}

fn show_verdict(rt: &impl Print, verdict: Verdict) -> io::Result<()> {
    match verdict {
        Verdict::Solved => rt.write_all(b"solved"),
        Verdict::None(state) => show_number(rt, b"none", state.0),
    }
}

fn show_heading(rt: &impl Print, heading: Heading) -> io::Result<()> {
    show_number(rt, b"", usize::from(heading.route))?;
    show_number(rt, b"", heading.unknowns)?;
    show_number(rt, b"", heading.givens)?;
    show_number(rt, b"", heading.used)
}
