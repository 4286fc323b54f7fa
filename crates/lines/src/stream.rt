// The stream: a chunk of input in, answer lines out, and what is held of a line that the chunk's end cuts.
//
// That the words which are lent for the book are enough is a clause and no array in the type, which would ask for so many words and no more.
ghost use Rattle.std.specs.Prelude.{◌≡◌, [], ◌++◌, ◌+◌, ◌*◌, ◌≤◌, min, length, take};
ghost use Rattle.model.specs.Words.{diary_length};
ghost use Rattle.model.specs.Reading.{settings_of};
ghost use Rattle.model.specs.Ledger.{ledger_of};
ghost use Rattle.model.specs.Lines.{answer_bytes, program_words, line_outcome};
ghost use Rattle.book.specs.Good.{GoodBook};
ghost use Rattle.lines.specs.Stream.{kept, behind, opened, told, ended, run, closed};
ghost use Rattle.framing.specs.Front.{Free};
ghost use Rattle.lines.specs.Post.{ends, held_of, Holds, point_at, point_of, Sized, Going, Begun, is_later};
ghost use Rattle.lines.specs.Post.{EndSized, size_of, end_point, EndedOf, Moved, TakenOf, Told};

use crate::lay::{SETTINGS_WORDS, lay_line};
use framing::line::{ANSWER_BYTES, Next, line_end, look, put_answer};
use header::settings::{diary_len, settings};
use model::{Answer, Settings, refused};
use step::book_step;
use text::store::put;

// The most bytes that are held of a line: one more than a good line can have, so that they say all. Byte 10 has room behind them.
const HELD_MOST: usize = 8 * SETTINGS_WORDS + 1;

const HELD_ROOM: usize = HELD_MOST + 1;

// The bytes of a line that is not over, and how many they are: an array has the room, since nothing is allocated. The kit's `arrayvec` has
// both in one, but is not Copy, and a stream is handed on by value.
#[derive(Clone, Copy)]
pub struct Held {
    pub bytes: [u8; HELD_ROOM],
    pub len: usize,
}

// Which line the bytes that come are of. An enum of its own, since three places in the input, none of them a failure, are neither an Option
// nor a Result.
#[derive(Clone, Copy)]
pub enum Phase {
    Opening,
    Later,
    Over,
}

// Where the program is: in the settings line, in a later line, or past a refused settings line; behind a good settings line the
// book is the first `size` words that are lent. Before it and past a refused one they are none, so that the book is these words in each phase:
// the size stands beside the phase and not inside one of its cases.
#[derive(Clone, Copy)]
pub struct Stream {
    pub held: Held,
    pub phase: Phase,
    pub size: usize,
}

// The stream after a chunk, and how many bytes are written.
#[derive(Clone, Copy)]
pub struct Fed {
    pub stream: Stream,
    pub wrote: usize,
}

// A line is over: the book's length, where more lines are read, and how many bytes are written.
#[derive(Clone, Copy)]
pub struct Ended {
    pub size: Option<usize>,
    pub wrote: usize,
}

// The answer of a line, and how many bytes of the input it took.
#[derive(Clone, Copy)]
pub struct Taken {
    pub used: usize,
    pub answer: Answer,
}

// How many bytes of a chunk were whole lines, and how many bytes are written.
#[derive(Clone, Copy)]
pub struct Progress {
    pub used: usize,
    pub wrote: usize,
}

// A piece of a line behind what is held.
fn hold(held: Held, piece: &[u8]) -> Held
    requires holds { Holds held (held_of held) }
    requires free { Free piece.now }
    ensures { Holds result (kept (held_of held ++ piece.now)) }
{
    let mut next = held;
    let len = held.len;
    let n = piece.len().min(HELD_MOST - len);
    put(&mut next.bytes, len, &piece[..n]);
    next.len = len + n;
    next
}

// The answer of the first line of a chunk, if it is over, and the book after it.
fn take_line(book: &mut [u32], s: Settings, diary: usize, chunk: &[u8]) -> Option<Taken>
    requires good_book { GoodBook s book.old }
    requires diary_value { diary ≡ diary_length s }
    ensures { TakenOf chunk.now book.old result book.new }
{
    match look(chunk) {
        Next::Frame {
            len,
            order,
            request,
        } => Some(Taken {
            used: len + 1,
            answer: book_step(book, s, diary, order, request),
        }),
        Next::Other(n) => Some(Taken {
            used: n + 1,
            answer: refused(23, 0),
        }),
        Next::Partial => None,
    }
}

// The answers of all whole lines of a chunk that begins with a line. Every later line comes here, so that there is one loop into which
// the compiler can put the step.
fn answer_lines(book: &mut [u32], chunk: &[u8], out: &mut [u8], from: usize) -> Progress
    requires good_book { GoodBook (settings_of book.old) book.old }
    requires chunk_in_bounds { from + answer_bytes * ends chunk.now ≤ length out.old }
    ensures { Told (settings_of book.old) book.old chunk.now
        out.old from book.new out.new result.used result.wrote }
{
    let s = settings(book);
    let diary = diary_len(s);
    let mut at = from;
    let mut i = 0;
    while let Some(t) = take_line(book, s, diary, &chunk[i..]) {
        put_answer(out, at, t.answer);
        at += ANSWER_BYTES;
        i += t.used;
    }
    Progress { used: i, wrote: at }
}

// The end of a later line that is held: it is answered as in a chunk, with byte 10 behind it.
fn end_later(book: &mut [u32], size: usize, held: Held, out: &mut [u8]) -> Ended
    requires size_in_bounds { size ≤ length book.old }
    requires good_book { GoodBook (settings_of (take size book.old)) (take size book.old) }
    requires holds { Holds held (held_of held) }
    requires answer_bytes_in_bounds { answer_bytes ≤ length out.old }
    ensures { EndedOf (told (line_outcome (ledger_of (take size book.old)) (held_of held)))
        result book.old book.new out.old out.new }
{
    let mut bytes = held.bytes;
    let len = held.len;
    bytes[len] = 10;
    let end = len + 1;
    let p = answer_lines(&mut book[..size], &bytes[..end], out, 0);
    Ended {
        size: Some(size),
        wrote: p.wrote,
    }
}

// The end of the settings line.
fn settle(book: &mut [u32], line: &[u8], out: &mut [u8]) -> Ended
    requires program_words_in_bounds { program_words ≤ length book.old }
    requires answer_bytes_in_bounds { answer_bytes ≤ length out.old }
    ensures { EndedOf (opened line.now) result book.old book.new out.old out.new }
{
    match lay_line(book, line) {
        Ok(size) => Ended {
            size: Some(size),
            wrote: 0,
        },
        Err(refusal) => {
            put_answer(out, 0, Err(refusal));
            // nothing more is read
            Ended {
                size: None,
                wrote: ANSWER_BYTES,
            }
        }
    }
}

// No bytes. A function of its own, since a `Default` would not say that nothing is held.
fn nothing() -> Held
    ensures { Holds result [] }
{
    Held {
        bytes: [0; HELD_ROOM],
        len: 0,
    }
}

// The rest of a chunk, behind the end of a line.
fn go_on(book: &mut [u32], e: Ended, chunk: &[u8], out: &mut [u8]) -> Fed
    requires end_sized { EndSized e book.old }
    requires chunk_in_bounds { e.wrote + answer_bytes * length chunk.now ≤ length out.old }
    ensures { Moved (behind (take e.wrote out.old) (run (end_point e book.old) chunk.now))
        result.stream book.old book.new out.old out.new
        e.wrote result.wrote (e.wrote + answer_bytes * length chunk.now) × (result.stream.size ≡ size_of e) }
{
    let wrote = e.wrote;
    let Some(size) = e.size else {
        return Fed {
            stream: Stream {
                held: nothing(),
                phase: Phase::Over,
                size: 0,
            },
            wrote,
        };
    };
    let p = answer_lines(&mut book[..size], chunk, out, wrote);
    let used = p.used;
    Fed {
        stream: Stream {
            held: hold(nothing(), &chunk[used..]),
            phase: Phase::Later,
            size,
        },
        wrote: p.wrote,
    }
}

// A chunk of input. The answers go to the front of `out`.
pub fn feed(book: &mut [u32], stream: Stream, chunk: &[u8], out: &mut [u8]) -> Fed
    requires program_words_in_bounds { program_words ≤ length book.old }
    requires going { Going stream book.old }
    requires chunk_in_bounds { answer_bytes * length chunk.now ≤ length out.old }
    ensures { Moved (run (point_of stream book.old) chunk.now)
        result.stream book.old book.new out.old out.new 0 result.wrote (answer_bytes * length chunk.now) }
{
    let before = stream.held;
    let phase = stream.phase;
    let size = stream.size;
    let Some(n) = line_end(chunk) else {
        return Fed {
            stream: Stream {
                held: hold(before, chunk),
                phase,
                size,
            },
            wrote: 0,
        };
    };
    let held = hold(before, &chunk[..n]);
    let e = end_held(book, phase, size, held, out);
    let next = n + 1;
    go_on(book, e, &chunk[next..], out)
}

// The line that is held is over.
fn end_held(book: &mut [u32], phase: Phase, size: usize, held: Held, out: &mut [u8]) -> Ended
    requires program_words_in_bounds { program_words ≤ length book.old }
    requires sized { Sized phase size book.old }
    requires holds { Holds held (held_of held) }
    requires answer_bytes_in_bounds { answer_bytes ≤ length out.old }
    ensures { EndedOf (ended (point_at phase (ledger_of (take size book.old)) (held_of held)))
        result book.old book.new out.old out.new }
{
    match phase {
        Phase::Opening => {
            let bytes = held.bytes;
            let len = held.len;
            settle(book, &bytes[..len], out)
        }
        Phase::Later => end_later(book, size, held, out),
        Phase::Over => Ended {
            size: None,
            wrote: 0,
        },
    }
}

// The stream before the first byte.
pub fn begin() -> Stream
    ensures { Begun result }
{
    Stream {
        held: nothing(),
        phase: Phase::Opening,
        size: 0,
    }
}

fn is_later(phase: Phase) -> bool
    ensures { result ≡ is_later phase }
{
    matches!(phase, Phase::Later)
}

// The end of the input: the settings line ends in any case, a later one if it has begun.
pub fn close(book: &mut [u32], stream: Stream, out: &mut [u8]) -> Ended
    requires program_words_in_bounds { program_words ≤ length book.old }
    requires going { Going stream book.old }
    requires answer_bytes_in_bounds { answer_bytes ≤ length out.old }
    ensures { EndedOf (closed (point_of stream book.old))
        result book.old book.new out.old out.new }
{
    let held = stream.held;
    let phase = stream.phase;
    let size = stream.size;
    if is_later(phase) {
        if held.len == 0 {
            return Ended {
                size: Some(size),
                wrote: 0,
            };
        }
    }
    end_held(book, phase, size, held, out)
}
