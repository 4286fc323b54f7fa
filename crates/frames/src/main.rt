// The program: reads a settings line and frame lines from standard input, and writes an answer line for each.
//
// Proved: for the bytes that `read` left in `chunk`, the bytes of `out` that are handed to `write` are the answers (`take_turn`); a last
// line without byte 10 is answered at the end of the input, and not where reading or writing failed (`finish`); and so, at the end of the
// input, all bytes that were handed to `write` are what the lines that were read ask for (`drive`). Of a reader that says which bytes it
// has left, and of a writer that says which it holds, those are the bytes: where nothing failed, the writer has gained the answers of all
// that the reader had left.
// Trusted: the system's standard input and output, of which no contract says what they move. That is, that a read leaves the next bytes of
// standard input at the front of `chunk` and answers how many, and 0 at the end of the input alone; and that a write takes the first bytes
// that it is handed and answers how many.
#![tactic(auto)]

ghost use Rattle.std.specs.Prelude.{◌≡◌, ◌*◌, ◌≤◌, ◌<◌, ◌↔◌, ℕ, true, Ok, IsTrue, IfSome, OnOk, length, take};
ghost use Rattle.std.specs.Io.{ReadsAtMost};
ghost use Rattle.std.specs.Io.KnownBytes.{Appends, ReadConsumes};
ghost use Rattle.std.specs.IoError.{error_kind};
ghost use Rattle.std.specs.Process.{exit_status};
ghost use Rattle.lines.specs.Post.{Going, Begun};
ghost use Rattle.model.specs.Lines.{answer_bytes, program_words, frames};
ghost use Rattle.frames.specs.Run.{answers_room, heard, signed, is_end, goes_on, status_of, Turned, Carried, Finished, Driven};

use framing::line::ANSWER_BYTES;
use lines::lay::PROGRAM_WORDS;
use lines::stream::{Phase, Stream};
use std::io;
use std::io::{Error, ErrorKind, Read, Write};
use std::process::ExitCode;

// The most bytes that a turn reads, and room for an answer to each of them.
const CHUNK: usize = 65536;

const ANSWERS_ROOM: usize = ANSWER_BYTES * CHUNK;

// How a turn went: there may be more input; there is none, or none that is read; reading failed; writing failed. An enum of its own, since
// two ways to go well and two to fail are neither an Option nor a Result: the failures are told apart by what the status says of them.
#[derive(Clone, Copy)]
pub enum Sign {
    More,
    Ended,
    Unread(Error),
    Unwritten(Error),
}

// What `read` answered in a turn; where the stream is then; how many bytes are handed to `write`, and what came of writing them; and how the
// turn went.
#[derive(Drop)]
pub struct Turn {
    pub got: io::Result<usize>,
    pub stream: Stream,
    pub wrote: usize,
    pub put: io::Result<()>,
    pub sign: Sign,
}

// How many bytes were handed to `write`, and whether it took them all.
#[derive(Drop)]
pub struct Sent {
    pub handed: usize,
    pub put: io::Result<()>,
}

// How the last turn went, how many bytes were handed to `write` behind it, and whether that took them.
#[derive(Drop)]
pub struct End {
    pub sign: Sign,
    pub wrote: usize,
    pub put: io::Result<()>,
}

// What an answer of `read` says.
impl From<io::Result<usize>> for Sign {
    ghost use Rattle.frames.specs.Run.{heard};

    ghost from_gives = { λ got sign. sign ≡ heard got };

    fn from(got: io::Result<usize>) -> Sign {
        match got {
            Ok(0) => Sign::Ended,
            Ok(_) => Sign::More,
            Err(e) => Sign::Unread(e),
        }
    }
}

// The sign of a turn: no more is read behind a refused settings line, or where the answers cannot be written.
fn sign_of_turn(read: Sign, phase: Phase, put: io::Result<()>) -> Sign
    ensures { result ≡ signed read phase put }
{
    match read {
        Sign::More => match put {
            Err(e) => Sign::Unwritten(e),
            Ok(()) => match phase {
                Phase::Opening | Phase::Later => Sign::More,
                Phase::Over => Sign::Ended,
            },
        },
        other => other,
    }
}

fn is_end(sign: Sign) -> bool
    ensures { result ≡ is_end sign }
{
    matches!(sign, Sign::Ended)
}

fn goes_on(turn: &Turn) -> bool
    ensures { result ≡ goes_on turn.now.sign }
{
    matches!(turn.sign, Sign::More)
}

// Whether a call that failed so was interrupted by a signal before it moved a byte.
fn is_interrupted(error: &Error) -> bool
    ensures { IsTrue result ↔ (error_kind error.now ≡ ErrorKind.Interrupted) }
{
    error.kind() == ErrorKind::Interrupted
}

// Reads once; a call that a signal interrupted is made again. As many turns as a number of 64 bits, here and below: a loop that ends by itself
// has to show that it ends, and how often the system lets it go on is in no contract.
fn receive<R: Read>(input: &mut R, chunk: &mut [u8]) -> io::Result<usize>
    ensures bound { ReadsAtMost result chunk.new }
    ensures bytes { ReadConsumes (R.remaining input.old) (R.remaining input.new) result chunk.new }
{
    for _ in 0..u64::MAX {
        match input.read(chunk) {
            Ok(n) => return Ok(n),
            Err(e) => {
                if !is_interrupted(&e) {
                    return Err(e);
                }
            }
        }
    }
    input.read(chunk)
}

// Hands all the bytes to `write`, the rest again where it took a part. By hand and not by `write_all`, whose contract does not say what was
// written where it fails.
fn send<W: Write>(output: &mut W, bytes: &[u8]) -> Sent
    ensures handed { result.handed ≡ length bytes.now }
    ensures whole { OnOk result.put (Appends (W.contents output.old) (W.contents output.new) bytes.now) }
    ensures part { (n : ℕ) × Appends (W.contents output.old) (W.contents output.new) (take n bytes.now) }
{
    let handed = bytes.len();
    let mut sent = 0;
    for _ in 0..u64::MAX {
        if sent == handed {
            break;
        }
        match output.write(&bytes[sent..]) {
            Ok(0) => break,
            Ok(n) => sent += n,
            Err(e) => {
                if !is_interrupted(&e) {
                    return Sent {
                        handed,
                        put: Err(e),
                    };
                }
            }
        }
    }
    if sent < handed {
        return Sent {
            handed,
            put: Err(not_taken()),
        };
    }
    Sent {
        handed,
        put: Ok(()),
    }
}

// Bytes were handed to `write`, and it took none of them.
fn not_taken() -> Error
    ensures { error_kind result ≡ ErrorKind.WriteZero }
{
    Error::new(ErrorKind::WriteZero, "failed to write whole buffer")
}

// Reads once, and answers what came before it waits again.
fn take_turn<R: Read, W: Write>(
    input: &mut R,
    output: &mut W,
    book: &mut [u32],
    stream: Stream,
    chunk: &mut [u8],
    out: &mut [u8],
) -> Turn
    requires program_words_in_bounds { program_words ≤ length book.old }
    requires going { Going stream book.old }
    requires chunk_in_bounds { answer_bytes * length chunk.old ≤ length out.old }
    ensures turned { Turned stream book.old out.old chunk.new result book.new out.new }
    ensures carried { Carried (R.remaining input.old) (R.remaining input.new)
        (W.contents output.old) (W.contents output.new) result chunk.new out.new }
{
    let got = receive(input, chunk);
    let n = got.unwrap_or(0);
    let fed = lines::stream::feed(book, stream, &chunk[..n], out);
    let wrote = fed.wrote;
    let next = fed.stream;
    let phase = next.phase;
    let sent = send(output, &out[..wrote]);
    let put = sent.put;
    Turn {
        got,
        stream: next,
        wrote: sent.handed,
        put,
        sign: sign_of_turn(Sign::from(got), phase, put),
    }
}

// Before the first turn.
fn start() -> Turn
    ensures begun { Begun result.stream }
    ensures sign { result.sign ≡ Sign.More }
{
    Turn {
        got: Ok(0),
        stream: lines::stream::begin(),
        wrote: 0,
        put: Ok(()),
        sign: Sign::More,
    }
}

// Behind the last turn: the end of the input ends a line that has begun, and no failure does.
fn finish(book: &mut [u32], sign: Sign, stream: Stream, out: &mut [u8]) -> usize
    requires program_words_in_bounds { program_words ≤ length book.old }
    requires going { Going stream book.old }
    requires answer_bytes_in_bounds { answer_bytes ≤ length out.old }
    ensures { Finished sign stream book.old result book.new out.new }
{
    if !is_end(sign) {
        return 0;
    }
    let end = lines::stream::close(book, stream, out);
    end.wrote
}

// Turn by turn to the end. A proved loop has to end, and nothing says that the input does. So the loop counts its turns, up to a number
// that no run reaches.
fn drive<R: Read, W: Write>(
    input: &mut R,
    output: &mut W,
    book: &mut [u32],
    chunk: &mut [u8],
    out: &mut [u8],
) -> End
    requires program_words_in_bounds { program_words ≤ length book.old }
    requires chunk_in_bounds { answer_bytes * length chunk.old ≤ length out.old }
    requires answer_bytes_in_bounds { answer_bytes ≤ length out.old }
    ensures driven { Driven (R.remaining input.old) (R.remaining input.new)
        (W.contents output.old) (W.contents output.new) result out.new }
    ensures answered { 0 < length chunk.old → is_end result.sign ≡ true → OnOk result.put
        (IfSome (R.remaining input.old) (λ bytes. Appends (W.contents output.old) (W.contents output.new) (frames bytes))) }
{
    let mut turn = start();
    for _ in 0..u64::MAX {
        if !goes_on(&turn) {
            break;
        }
        let before = turn.stream;
        turn = take_turn(input, output, book, before, chunk, out);
    }
    let sign = turn.sign;
    let wrote = finish(book, sign, turn.stream, out);
    let sent = send(output, &out[..wrote]);
    End {
        sign,
        wrote: sent.handed,
        put: sent.put,
    }
}

// The program's exit status: 0, or 1 behind a line on standard error that says what failed.
fn status(rt: &impl Eprint, end: End) -> ExitCode
    ensures { exit_status result ≡ status_of end.sign end.put }
{
    match end.sign {
        Sign::Ended => match end.put {
            Ok(()) => ExitCode::SUCCESS,
            Err(e) => failure(rt, "standard output", e),
        },
        Sign::Unread(e) => failure(rt, "standard input", e),
        Sign::Unwritten(e) => failure(rt, "standard output", e),
        Sign::More => ExitCode::FAILURE,
    }
}

// Says on standard error what failed. Where that fails too, the status alone tells it.
fn failure(rt: &impl Eprint, what: &str, error: Error) -> ExitCode
    ensures { exit_status result ≡ 1 }
{
    let _ = eprintln!(rt; "frames: {what}: {error}");
    ExitCode::FAILURE
}

// Room for an answer to each byte of a chunk.
fn answers() -> [u8; ANSWERS_ROOM]
    ensures { answers_room ≡ length result }
{
    [0; ANSWERS_ROOM]
}

// The whole program. It allocates nothing.
fn main(rt: HostRuntime) -> ExitCode {
    let mut book = [0u32; PROGRAM_WORDS];
    let mut chunk = [0u8; CHUNK];
    let mut out = answers();
    let end = drive(
        &mut rt.stdin(),
        &mut rt.stdout(),
        &mut book,
        &mut chunk,
        &mut out,
    );
    status(&rt, end)
}
