// The program `ctor`: its standard input to one line.
#![tactic(auto)]

ghost use Rattle.std.specs.Prelude.{◌≡◌, ◌+◌, ◌≤◌, ◌<◌, length, take, IfOk};
ghost use Rattle.std.specs.Io.KnownBytes.{Consumes, IsAtEnd};
ghost use Rattle.meaning.specs.Entries.{build_answer, run_ctor};
ghost use Rattle.record.specs.Bytes.{Put};
ghost use Rattle.error.specs.Told.{Told};
ghost use Rattle.ctor_line.specs.Split.{asked};

use error::Refusal;
use std::io::{self, ErrorKind, Read};

// The answer to an input whose target has n bytes.
fn ask(input: &[u8], n: usize, buffer: &mut [u8]) -> Result<usize, Refusal>
    requires n_in_bounds { 3 + n ≤ length input.now }
    requires buffer_len { length buffer.old ≡ 65536 }
    ensures { Told (asked build_answer (Some n) input.now) buffer.old result buffer.new }
{
    let end = 3 + n;
    builtin::call_ctor(input[0], &input[3..end], &input[end..], buffer)
}

// The line of an input, at the front of `out`. "Its result buffer is 65,536 bytes."
fn run(input: &[u8], out: &mut [u8]) -> usize
    requires { 131138 ≤ length out.old }
    ensures put { Put out.old 0 (run_ctor input.now) result out.new }
    ensures upper_bound { result ≤ length out.new }
{
    let mut buffer = [0u8; 65536];
    match ctor_line::split(input) {
        Some(n) => {
            let answer = ask(input, n, &mut buffer);
            ctor_line::put_line(answer, &buffer, out)
        }
        None => ctor_line::put_line(Err(Refusal::BadTarget), &buffer, out),
    }
}

// No contract can say what is written. This one says what is handed over to be written: the line of the input that was read.
fn print(rt: &impl Print, input: &[u8], text: &[u8]) -> io::Result<()>
    requires { text.now ≡ run_ctor input.now }
{
    rt.write_all(text)
}

// Fills the buffer from its front until it is full or the input ends: the n bytes at the front are the next n that the
// reader had, in their order, and where they are fewer than the buffer takes, none is left. A read that a signal
// interrupted is made again.
fn read_full<R: Read>(from: &mut R, buffer: &mut [u8]) -> io::Result<usize>
    ensures within { IfOk result (λ n. n ≤ length buffer.new) }
    ensures bytes { IfOk result (λ n. Consumes (R.remaining from.old) (R.remaining from.new) (take n buffer.new)) }
    ensures end { IfOk result (λ n. n < length buffer.new → IsAtEnd (R.remaining from.new)) }
{
    let mut n = 0;
    for _ in 0..u64::MAX {
        if n >= buffer.len() {
            return Ok(n);
        }
        match from.read(&mut buffer[n..]) {
            Ok(0) => return Ok(n),
            Ok(k) => n += k,
            Err(e) => {
                if e.kind() != ErrorKind::Interrupted {
                    return Err(e);
                }
            }
        }
    }
    Err(ErrorKind::TimedOut.into())
}

// One byte more than a call may have is asked for, so that a longer input is seen to be longer.
fn main(rt: HostRuntime) -> io::Result<()> {
    let mut input = [0u8; 65537];
    let n = read_full(&mut rt.stdin(), &mut input)?;
    let mut out = [0u8; 131200];
    let r = run(&input[..n], &mut out);
    print(&rt, &input[..n], &out[..r])
}
