// What is printed, put into an output part by part: words, decimal numbers, and records in hexadecimal, each line with its line feed.
// Nothing here is a public call of the library: the functions are for the crates that print, which meet what they require.

#![tactic(auto)]

ghost use Rattle.std.specs.Prelude.{◌≡◌, [], ◌∷◌, ◌++◌, map, ◌+◌, ◌*◌, ◌≤◌, ◌<◌, length};
ghost use Rattle.tables.specs.Inner.Put.{Put};
ghost use Rattle.tables.specs.Answered.{accepted};
ghost use Rattle.entry.specs.Inner.Codes.{listed_record};
ghost use Rattle.printing.specs.Print.{line_feed, decimal, digit_byte, hexadecimal, record_lines, unreadable_line, refused_word};
ghost use Rattle.printing.specs.Print.{refused_line, reply_line};

fn put(out: &mut [u8], at: usize, bytes: &[u8]) -> usize
    requires { at + length bytes.now ≤ length out.old }
    ensures { Put out.old at bytes.now result out.new }
{
    let end = at + bytes.len();
    out[at..end].copy_from_slice(bytes);
    end
}

// A number has at most twenty digits.
fn put_decimal(out: &mut [u8], at: usize, n: u64) -> usize
    requires { at + 20 ≤ length out.old }
    ensures put { Put out.old at (decimal n) result out.new }
    ensures upper_bound { result ≤ at + 20 }
{
    let mut buffer = itoa::Buffer::new();
    let text = buffer.format(n);
    put(out, at, text.as_bytes())
}

// From 10 on the digits stand 39 further on. No branch: what a digit is cannot be foretold.
#[tactic(auto, using(crate::proofs::Numbers::digit_at))]
fn digit_byte(d: u8) -> u8
    requires { d < 16 }
    ensures { result ≡ digit_byte d }
{
    48 + d + 39 * ((d + 6) / 16)
}

fn put_hexadecimal(out: &mut [u8], at: usize, bytes: &[u8]) -> usize
    requires { at + 2 * length bytes.now ≤ length out.old }
    ensures { Put out.old at (hexadecimal bytes.now) result out.new }
{
    let mut end = at;
    for byte in bytes {
        out[end] = digit_byte(byte / 16);
        out[end + 1] = digit_byte(byte % 16);
        end += 2;
    }
    end
}

// A record on a line.
pub fn put_line(out: &mut [u8], at: usize, bytes: &[u8]) -> usize
    requires { at + 2 * length bytes.now < length out.old }
    ensures { Put out.old at (hexadecimal bytes.now ++ (line_feed ∷ [])) result out.new }
{
    let end = put_hexadecimal(out, at, bytes);
    out[end] = b'\n';
    end + 1
}

// The line of a monomial's record.
fn put_monomial(out: &mut [u8], at: usize, code: u16) -> usize
    requires { at + length (record_lines (listed_record code ∷ [])) ≤ length out.old }
    ensures { Put out.old at (record_lines (listed_record code ∷ [])) result out.new }
{
    let i = code / 1024;
    let m = code % 1024;
    let low = (m % 256) as u8;
    let high = (m / 256) as u8;
    if i == 0 {
        put_line(out, at, &[2, low, high])
    } else {
        put_line(out, at, &[3, (i - 1) as u8, low, high])
    }
}

// The lines of the monomials that numbers stand for.
pub fn put_monomials(out: &mut [u8], from: usize, codes: &[u16]) -> usize
    requires { from + length (record_lines (map listed_record codes.now)) ≤ length out.old }
    ensures { Put out.old from (record_lines (map listed_record codes.now)) result out.new }
{
    let mut at = from;
    for &code in codes {
        at = put_monomial(out, at, code);
    }
    at
}

// Of a line, and of a volume that cannot be read.
pub fn put_unreadable(out: &mut [u8], at: usize) -> usize
    requires { at + 11 ≤ length out.old }
    ensures { Put out.old at unreadable_line result out.new }
{
    put(out, at, b"unreadable\n")
}

// A space and a number.
fn put_number(out: &mut [u8], at: usize, n: u64) -> usize
    requires { at + 21 ≤ length out.old }
    ensures put { Put out.old at (32 ∷ decimal n) result out.new }
    ensures upper_bound { result ≤ at + 21 }
{
    out[at] = b' ';
    put_decimal(out, at + 1, n)
}

// `refused` and the number, which is all that the line says of a refusal; the line is not ended.
fn put_refusal(out: &mut [u8], at: usize, number: u8) -> usize
    requires { at + 28 ≤ length out.old }
    ensures put { Put out.old at (refused_word ++ (32 ∷ decimal number)) result out.new }
    ensures upper_bound { result ≤ at + 28 }
{
    let word = put(out, at, b"refused");
    put_number(out, word, u64::from(number))
}

pub fn put_refused(out: &mut [u8], at: usize, number: u8) -> usize
    requires { at + 29 ≤ length out.old }
    ensures { Put out.old at (refused_line number []) result out.new }
{
    let end = put_refusal(out, at, number);
    out[end] = b'\n';
    end + 1
}

pub fn put_count(out: &mut [u8], at: usize, count: usize) -> usize
    requires { at + 21 ≤ length out.old }
    ensures { Put out.old at (reply_line (accepted (count ∷ []))) result out.new }
{
    let end = put_decimal(out, at, count as u64);
    out[end] = b'\n';
    end + 1
}

// A refusal, and the count passed before it.
pub fn put_refused_behind(out: &mut [u8], at: usize, number: u8, passed: usize) -> usize
    requires { at + 50 ≤ length out.old }
    ensures { Put out.old at (refused_line number (passed ∷ [])) result out.new }
{
    let middle = put_refusal(out, at, number);
    let end = put_number(out, middle, passed as u64);
    out[end] = b'\n';
    end + 1
}
