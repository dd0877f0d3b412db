// What the program `sheet` prints, as functions on slices; the program only reads and writes.
// Nothing here is a public call of the library: the functions are for that program, which meets what they require.

#![tactic(auto)]

ghost use Rattle.std.specs.Prelude.{◌≡◌, true, [], ◌∷◌, map, ◌+◌, ◌-◌, ◌^◌, ◌≤◌, ◌<◌, length, take, MatchResult, OnOk};
ghost use Rattle.tables.specs.Inner.Put.{Put};
ghost use Rattle.tables.specs.Questions.{number, letters_fit};
ghost use Rattle.notation.specs.Inner.Work.{text_words};
ghost use Rattle.order.specs.Order.{order};
ghost use Rattle.solution.specs.Condition.{condition_of};
ghost use Rattle.entry.specs.Record.{start_record, end_record, none_record};
ghost use Rattle.entry.specs.Inner.Codes.{listed_record};
ghost use Rattle.entry.specs.Entry.{archived_records};
ghost use Rattle.entry.specs.Questions.{route_fits};
ghost use Rattle.writer.specs.Inner.Steps.{count_of, entry_from};
ghost use Rattle.printing.specs.Print.{record_lines};
ghost use Rattle.sheet_lines.specs.Fields.{digits_ahead, number_behind, has_letters, is_readable, read_line};
ghost use Rattle.sheet_lines.specs.Sheet.{line_refusal};
ghost use Rattle.sheet_lines.specs.Pieces.{Carried, kept_length, nothing_carried, prints_last};
ghost use Rattle.sheet_lines.specs.Inner.Feeding.{line_room, table_of, IsValues, Entered, Answers, PrintsLine, Took, Feeds};

use arrayvec::ArrayVec;
use solver::OrderedLetters;
use std::marker::Model;
use tables::{Letters, Question};
use writer::Listing;

const LONGEST_LINE: usize = 300; // 'lines over 300 bytes without the line feed' are unreadable

const KEPT_LENGTH: usize = 301; // as many bytes of a line are kept, enough to see that it is too long

const LINE_ROOM: usize = 82962; // no line prints more: three bytes for each of an entry's 27,654

// A readable line of a sheet, taken apart: the route, U, G and the place where the text begins.
#[derive(Clone, Copy, Debug, PartialEq, Eq)]
pub struct Line {
    pub route: usize,
    pub unknowns: usize,
    pub givens: usize,
    pub text: usize,
}

// The written order for ten letters, worked out once for all lines, and room for the monomials of an entry.
#[derive(Drop)]
pub struct Work {
    masks: [u16; 1024],
    codes: [u16; 7168],
    ghost ordered: { masks ≡ order 10 },
}

impl Work {
    // Works the order out. What a line asks of it stands in the type too, so that it serves any line.
    pub fn new() -> Self
        ensures { result.masks ≡ order 10 }
    {
        let mut masks = [0; 1024];
        order::fill_order(10, &mut masks);
        Work {
            masks,
            codes: [0; 7168],
        }
    }
}

// What became of a line: the last route printed, and the place behind what was printed.
#[derive(Clone, Copy, Debug, PartialEq, Eq)]
pub struct Printed {
    pub last: usize,
    pub next: usize,
}

// What became of a piece of the input: how many of its bytes were used, and the place behind what was printed.
#[derive(Clone, Copy, Debug, PartialEq, Eq)]
pub struct Fed {
    pub used: usize,
    pub next: usize,
}

fn digit_of(byte: u8) -> usize
    ensures { (result ≡ byte - 48) × (result < 256) }
{
    usize::from(byte.saturating_sub(b'0'))
}

#[tactic(auto, unfolding(crate::specs::Fields::digits_ahead))]
fn digits_ahead(line: &[u8]) -> usize
    ensures { (result ≡ digits_ahead line.now) × (result ≤ length line.now) }
{
    line.iter().take_while(|byte| byte.is_ascii_digit()).count()
}

// The number that one to three digits say.
fn number(digits: &[u8]) -> usize
    requires { length digits.now ≤ 3 }
    ensures { result ≡ number_behind 0 digits.now }
{
    let mut n = 0;
    for digit in digits {
        n = 10 * n + digit_of(*digit);
    }
    n
}

#[tactic(auto, unfolding(crate::specs::Fields::has_letters))]
fn has_letters(rest: &[u8]) -> bool
    ensures { result ≡ has_letters rest.now }
{
    matches!(rest, [b' ', u, b' ', g, b' ', ..] if u.is_ascii_digit() && g.is_ascii_digit())
}

#[tactic(auto, unfolding(crate::specs::Fields::is_readable))]
fn is_readable(line: &[u8]) -> bool
    ensures { result ≡ is_readable line.now }
{
    let k = digits_ahead(line);
    line.len() <= LONGEST_LINE && 1 <= k && k <= 3 && has_letters(&line[k..])
}

#[tactic(auto, unfolding(crate::specs::Fields::read_line))]
fn read_line(line: &[u8]) -> Option<Line>
    ensures { result ≡ read_line line.now }
{
    if !is_readable(line) {
        return None;
    }
    let k = digits_ahead(line);
    Some(Line {
        route: number(&line[..k]),
        unknowns: digit_of(line[k + 1]),
        givens: digit_of(line[k + 3]),
        text: k + 5,
    })
}

// Questions 2, 3, 5, 6, 7 and 15, and the values of the text in `values`. Question 1 is answered yes.
fn line_values(
    last: usize,
    route: usize,
    letters: Letters,
    text: &[u8],
    values: &mut [u64],
) -> Result<(), Question>
    requires { (letters_fit letters.unknowns letters.givens ≡ true) × (length values.old ≡ 2 ^ (letters.n - 6)) }
    ensures value { MatchResult result (λ _. line_refusal last route letters.unknowns letters.givens text.now ≡ 0)
        (λ no. number no ≡ line_refusal last route letters.unknowns letters.givens text.now) }
    ensures values_after { OnOk result (values.new ≡ text_words letters.unknowns letters.givens text.now) }
{
    tables::require(Question::Route, entry::route_fits(route))?;
    notation::text_values(letters, text, values)?;
    tables::require(Question::Rising, last < route)?;
    Ok(())
}

// The first record and the monomials of an entry. Kinds are written as the bytes that the layout of the records has.
fn put_front(out: &mut [u8], at: usize, route: usize, letters: Letters, codes: &[u16]) -> usize
    requires { (route < 256) × (at + (9 + length (record_lines (map listed_record codes.now))) ≤ length out.old) }
    ensures { Put out.old at (record_lines (start_record route letters.unknowns letters.givens ∷ map listed_record codes.now)) result
        out.new }
{
    let start = [
        1u8,
        route as u8,
        letters.unknowns as u8,
        letters.givens as u8,
    ];
    let started = printing::put_line(out, at, &start);
    printing::put_monomials(out, started, codes)
}

// The last record of an entry.
fn put_end(out: &mut [u8], at: usize, route: usize) -> usize
    requires { (route < 256) × (at + 5 ≤ length out.old) }
    ensures { Put out.old at (record_lines (end_record route ∷ [])) result out.new }
{
    let end = [4u8, route as u8];
    printing::put_line(out, at, &end)
}

// 'none', and the last record of an entry.
fn put_none(out: &mut [u8], at: usize, state: u8, route: usize) -> usize
    requires { (route < 256) × (at + 10 ≤ length out.old) }
    ensures { Put out.old at (record_lines (none_record state ∷ end_record route ∷ [])) result out.new }
{
    let none = [5u8, state];
    let told = printing::put_line(out, at, &none);
    put_end(out, told, route)
}

// The records of an entry that was listed, its order being 0, 1, 2, ..
fn put_found(
    out: &mut [u8],
    at: usize,
    route: usize,
    letters: Letters,
    found: Listing,
    codes: &[u16],
) -> usize
    requires { (route < 256) × (count_of found ≤ length codes.now)
        × (at + length (record_lines (entry_from route letters.unknowns letters.givens [] found codes.now)) ≤ length out.old) }
    ensures { Put out.old at (record_lines (entry_from route letters.unknowns letters.givens [] found codes.now)) result out.new }
{
    let listed = put_front(out, at, route, letters, &codes[..found.all]);
    match found.none {
        Some(state) => put_none(out, listed, state, route),
        None => put_end(out, listed, route),
    }
}

// The records of the entry of a condition by its values, which are used up, unknown 0 going first, then 1, and so on. `masks` has the
// written order, `coefficients` and `codes` are room.
fn put_values(
    out: &mut [u8],
    at: usize,
    route: usize,
    letters: Letters,
    values: &mut [u64],
    coefficients: &mut [u64],
    masks: &[u16],
    codes: &mut [u16],
) -> usize
    requires { (letters_fit letters.unknowns letters.givens ≡ true) × (route_fits route ≡ true) × IsValues letters.n values.old
        × (length coefficients.old ≡ 2 ^ (letters.n - 6)) × (masks.now ≡ order letters.n) × (length codes.old ≡ 7168)
        × (at + line_room ≤ length out.old) }
    ensures { Put out.old at
        (record_lines (archived_records route (condition_of letters.unknowns letters.givens (table_of letters.n values.old)))) result
        out.new }
{
    let ordered = OrderedLetters {
        letters,
        order: solution::default_order(letters.unknowns),
    };
    writer::transform(letters.n, values, coefficients);
    let found = writer::list_entry(ordered, coefficients, values, masks, codes);
    put_found(out, at, route, letters, found, codes)
}

// The same; fewer letters than ten have an order of their own.
#[tactic(auto, using(words::proofs::Letters::count_small))]
fn put_entry(
    out: &mut [u8],
    at: usize,
    route: usize,
    letters: Letters,
    values: &mut [u64],
    work: &mut Work,
) -> usize
    requires { (letters_fit letters.unknowns letters.givens ≡ true) × (route_fits route ≡ true) × IsValues letters.n values.old
        × (at + line_room ≤ length out.old) }
    ensures { Put out.old at
        (record_lines (archived_records route (condition_of letters.unknowns letters.givens (table_of letters.n values.old)))) result
        out.new }
{
    let k = words::word_count(letters.n);
    let mut room = [0u64; 16];
    let coefficients = &mut room[..k];
    if letters.n == 10 {
        return put_values(
            out,
            at,
            route,
            letters,
            values,
            coefficients,
            &work.masks,
            &mut work.codes,
        );
    }
    let mut few = [0u16; 1024];
    order::fill_order(letters.n, &mut few);
    put_values(
        out,
        at,
        route,
        letters,
        values,
        coefficients,
        &few[..letters.table_len],
        &mut work.codes,
    )
}

// The records of the entry of a readable line, unless a question is answered no: then nothing is printed yet.
fn put_answer(
    out: &mut [u8],
    at: usize,
    last: usize,
    line: Line,
    text: &[u8],
    work: &mut Work,
) -> Result<usize, Question>
    requires { at + line_room ≤ length out.old }
    ensures { MatchResult result (λ next. Entered last line text.now out.old at next out.new)
        (λ no. (number no ≡ line_refusal last line.route line.unknowns line.givens text.now) × (out.new ≡ out.old)) }
{
    let letters = Letters::new(line.unknowns, line.givens)?;
    let k = words::word_count(letters.n);
    let mut room = [0u64; 16];
    let values = &mut room[..k];
    line_values(last, line.route, letters, text, values)?;
    Ok(put_entry(out, at, line.route, letters, values, work))
}

// A readable line.
fn answer_line(
    out: &mut [u8],
    at: usize,
    last: usize,
    line: Line,
    text: &[u8],
    work: &mut Work,
) -> Printed
    requires { at + line_room ≤ length out.old }
    ensures { Answers last line text.now out.old at result out.new }
{
    match put_answer(out, at, last, line, text, work) {
        Ok(next) => Printed {
            last: line.route,
            next,
        },
        Err(question) => {
            let next = printing::put_refused(out, at, tables::number(question));
            Printed { last, next }
        }
    }
}

// What `sheet` prints for a line, its line feed left out, behind an entry with the route `last`, 0 for none.
pub fn sheet_line(out: &mut [u8], at: usize, last: usize, bytes: &[u8], work: &mut Work) -> Printed
    requires { at + line_room ≤ length out.old }
    ensures { PrintsLine last bytes.now out.old at result out.new }
{
    match read_line(bytes) {
        Some(line) => answer_line(out, at, last, line, &bytes[line.text..], work),
        None => {
            let next = printing::put_unreadable(out, at);
            Printed { last, next }
        }
    }
}

// A sheet that is being printed: the last route printed, 0 before any, and the line that has begun, up to the first byte that makes it too
// long.
#[derive(Drop)]
pub struct Printer {
    last: usize,
    begun: ArrayVec<u8, KEPT_LENGTH>,
    work: Work,
}

impl Model for Printer {
    ghost Value = { Carried };

    ghost view = { λ p. record { last = p.last; begun = p.begun.items } };
}

impl Printer {
    // Before the first byte.
    pub fn new() -> Self
        ensures { result ≡ nothing_carried }
    {
        Printer::resume(0, &[])
    }

    // Behind the last route printed, 0 for none, and the bytes of a line that has begun: of a line that is too long whatever follows, the
    // first bytes are enough. Not inlined, as `finish` is not: what they move would stand in the frame of a whole run.
    #[inline(never)]
    pub fn resume(last: usize, begun: &[u8]) -> Self
        ensures { result ≡ record { last = last; begun = take kept_length begun.now } }
    {
        let first = &begun[..KEPT_LENGTH.min(begun.len())];
        let mut kept = ArrayVec::new();
        let _ = kept.try_extend_from_slice(first); // they fit
        Printer {
            last,
            begun: kept,
            work: Work::new(),
        }
    }

    // The last route printed.
    pub fn last(&self) -> usize
        ensures { result ≡ self.now.last }
    {
        self.last // 0 before any
    }

    // The line that has begun, up to the first byte that makes it too long: no byte where none has begun. With the last route it is all
    // that is carried, so that `resume` goes on from here.
    pub fn begun(&self) -> &[u8]
        ensures value { result.now ≡ self.now.begun }
        ensures fits { length result.now ≤ kept_length }
    {
        self.begun.as_slice()
    }

    // One more byte: a line feed prints the line that has begun, any other byte is kept while the line is not too long.
    fn take_byte(&mut self, byte: u8, out: &mut [u8], at: usize) -> usize
        requires { at + line_room ≤ length out.old }
        ensures { Took self.old (byte ∷ []) out.old at 1 result self.new out.new }
    {
        if byte == b'\n' {
            let printed = sheet_line(out, at, self.last, &self.begun, &mut self.work);
            self.last = printed.last;
            self.begun.clear();
            return printed.next;
        }
        if !self.begun.is_full() {
            self.begun.push(byte);
        }
        at
    }

    // A piece of the input, as far as there is room for what it prints.
    pub fn feed(&mut self, piece: &[u8], out: &mut [u8], at: usize) -> Fed
        requires { at ≤ length out.old }
        ensures { Feeds self.old piece.now out.old at result self.new out.new }
    {
        let mut next = at;
        for (used, byte) in piece.iter().enumerate() {
            if out.len() - next < LINE_ROOM {
                return Fed { used, next };
            }
            next = self.take_byte(*byte, out, next);
        }
        Fed {
            used: piece.len(),
            next,
        }
    }

    // The end of the input: the last line may lack its line feed.
    #[inline(never)]
    pub fn finish(mut self, out: &mut [u8], at: usize) -> usize
        requires { at + line_room ≤ length out.old }
        ensures { Put out.old at (prints_last self) result out.new }
    {
        if self.begun.is_empty() {
            return at;
        }
        let printed = sheet_line(out, at, self.last, &self.begun, &mut self.work);
        printed.next
    }
}
