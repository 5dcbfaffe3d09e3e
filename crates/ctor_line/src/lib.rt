// The line that the program `ctor` prints: "It prints `ok` and the record in lower-case hex, or `no` and the number (8:
// then wanted and given): one line, one space between its parts, numbers in decimal, a newline at the end."
#![tactic(auto)]

ghost use Rattle.std.specs.Prelude.{◌≡◌, [], ◌∷◌, ◌++◌, ◌+◌, ◌*◌, ◌/◌, ◌%◌, ◌≤◌, ◌<◌, length};
ghost use Rattle.meaning.specs.Answers.{ok, no, miscount};
ghost use Rattle.meaning.specs.Entries.{hex_digit, hex, decimal, line};
ghost use Rattle.record.specs.Bytes.{Put};
ghost use Rattle.error.specs.Refusals as refusals;
ghost use Rattle.ctor_line.specs.Printed.{answer_in, record_len};
ghost use Rattle.ctor_line.specs.Digits.{Leads};
ghost use Rattle.ctor_line.specs.Split.{split_of};

use error::Refusal;
use record::{Writer, join};

// ---- the input

// "a stage byte, a u16 target length, the target, then arguments (64 KiB in all)"
pub fn split(input: &[u8]) -> Option<usize>
    ensures { result ≡ split_of input.now }
{
    if input.len() < 3 {
        return None;
    }
    let n = usize::from(join(input[1], input[2]));
    if input.len() < 3 + n {
        return None;
    }
    if 65536 < input.len() {
        return None;
    }
    Some(n)
}

// ---- hex

fn hex_digit(n: u8) -> u8
    requires { n < 16 }
    ensures { result ≡ hex_digit n }
{
    if n < 10 {
        return b'0' + n;
    }
    b'a' - 10 + n
}

// Two digits for a byte, the high one first.
fn put_digits(b: u8, w: &mut Writer)
    requires { w.old.at + 2 ≤ length w.old.out.now }
    ensures put { Put w.old.out.now w.old.at (hex_digit (b / 16) ∷ hex_digit (b % 16) ∷ []) w.new.at w.new.out.now }
    ensures same_reference { w.new.out.ghost_name ≡ w.old.out.ghost_name }
{
    let high = hex_digit(b / 16);
    let low = hex_digit(b % 16);
    w.put_pair(high, low);
}

// "the record in lower-case hex"
fn put_hex(bytes: &[u8], w: &mut Writer)
    requires { w.old.at + 2 * length bytes.now ≤ length w.old.out.now }
    ensures put { Put w.old.out.now w.old.at (hex bytes.now) w.new.at w.new.out.now }
    ensures same_reference { w.new.out.ghost_name ≡ w.old.out.ghost_name }
{
    for byte in bytes {
        put_digits(*byte, w);
    }
}

// ---- decimal

// The power of ten that the first digit of n counts, and 1 for 0.
fn top_power(n: u64) -> u64
    ensures { Leads n result }
{
    10u64.pow(n.max(1).ilog10())
}

fn digit(n: u64, p: u64) -> u8
    requires { 0 < p }
    ensures { result ≡ 48 + n / p % 10 }
{
    b'0' + (n / p % 10) as u8
}

// "numbers in decimal": a digit for each power of ten, from the highest down to 1. A 64-bit number has 20 of them at most.
fn put_decimal(n: u64, w: &mut Writer)
    requires { w.old.at + 20 ≤ length w.old.out.now }
    ensures put { Put w.old.out.now w.old.at (decimal n) w.new.at w.new.out.now }
    ensures upper_bound { w.new.at ≤ w.old.at + 20 }
    ensures same_reference { w.new.out.ghost_name ≡ w.old.out.ghost_name }
{
    let mut p = top_power(n);
    while 0 < p {
        w.put_byte(digit(n, p));
        p = p / 10;
    }
}

// A number, and the byte that ends it.
fn put_number(n: u64, after: u8, w: &mut Writer)
    requires { w.old.at + 21 ≤ length w.old.out.now }
    ensures put { Put w.old.out.now w.old.at (decimal n ++ (after ∷ [])) w.new.at w.new.out.now }
    ensures upper_bound { w.new.at ≤ w.old.at + 21 }
    ensures same_reference { w.new.out.ghost_name ≡ w.old.out.ghost_name }
{
    put_decimal(n, w);
    w.put_byte(after);
}

// ---- the line

fn put_ok(bytes: &[u8], w: &mut Writer)
    requires { w.old.at + (4 + 2 * length bytes.now) ≤ length w.old.out.now }
    ensures put { Put w.old.out.now w.old.at (line (ok bytes.now)) w.new.at w.new.out.now }
    ensures upper_bound { w.new.at ≤ length w.new.out.now }
    ensures same_reference { w.new.out.ghost_name ≡ w.old.out.ghost_name }
{
    w.put_three(b'o', b'k', b' ');
    put_hex(bytes, w);
    w.put_byte(b'\n');
}

// A refusal by its number, whichever that is.
pub fn put_no(n: u8, w: &mut Writer)
    requires { w.old.at + 24 ≤ length w.old.out.now }
    ensures put { Put w.old.out.now w.old.at (line (no n)) w.new.at w.new.out.now }
    ensures upper_bound { w.new.at ≤ length w.new.out.now }
    ensures same_reference { w.new.out.ghost_name ≡ w.old.out.ghost_name }
{
    w.put_three(b'n', b'o', b' ');
    put_number(n as u64, b'\n', w);
}

fn put_miscount(wanted: usize, given: usize, w: &mut Writer)
    requires { w.old.at + 66 ≤ length w.old.out.now }
    ensures put { Put w.old.out.now w.old.at (line (miscount wanted given)) w.new.at w.new.out.now }
    ensures upper_bound { w.new.at ≤ length w.new.out.now }
    ensures same_reference { w.new.out.ghost_name ≡ w.old.out.ghost_name }
{
    let refusal = Refusal::Count { wanted, given };
    w.put_three(b'n', b'o', b' ');
    put_number(refusal.number() as u64, b' ', w);
    put_number(wanted as u64, b' ', w);
    put_number(given as u64, b'\n', w);
}

fn put_refusal(refusal: Refusal, w: &mut Writer)
    requires { w.old.at + 66 ≤ length w.old.out.now }
    ensures put { Put w.old.out.now w.old.at (line (refusals.refusal refusal)) w.new.at w.new.out.now }
    ensures upper_bound { w.new.at ≤ length w.new.out.now }
    ensures same_reference { w.new.out.ghost_name ≡ w.old.out.ghost_name }
{
    if let Refusal::Count { wanted, given } = refusal {
        put_miscount(wanted, given, w);
    } else {
        put_no(refusal.number(), w);
    }
}

fn put_answer(answer: Result<usize, Refusal>, buffer: &[u8], w: &mut Writer)
    requires within { record_len answer ≤ length buffer.now }
    requires room { w.old.at + (66 + 2 * length buffer.now) ≤ length w.old.out.now }
    ensures put { Put w.old.out.now w.old.at (line (answer_in answer buffer.now)) w.new.at w.new.out.now }
    ensures upper_bound { w.new.at ≤ length w.new.out.now }
    ensures same_reference { w.new.out.ghost_name ≡ w.old.out.ghost_name }
{
    match answer {
        Ok(n) => put_ok(&buffer[..n], w),
        Err(refusal) => put_refusal(refusal, w),
    }
}

// The line of an answer, at the front of `out`; its end is handed back. The record is at the front of `buffer`.
pub fn put_line(answer: Result<usize, Refusal>, buffer: &[u8], out: &mut [u8]) -> usize
    requires within { record_len answer ≤ length buffer.now }
    requires room { 66 + 2 * length buffer.now ≤ length out.old }
    ensures put { Put out.old 0 (line (answer_in answer buffer.now)) result out.new }
    ensures upper_bound { result ≤ length out.new }
{
    let mut w = Writer { out, at: 0 };
    put_answer(answer, buffer, &mut w);
    w.at
}
