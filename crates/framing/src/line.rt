// Lines: what stands at the front of the input, the words of a settings line, and the line of an answer.
ghost use Rattle.std.specs.Prelude.{◌≡◌, ◌==◌, true, ◌+◌, ◌/◌, ◌≤◌, length, take, position};
ghost use Rattle.model.specs.Messages.{answer_words};
ghost use Rattle.model.specs.Text.{hexadecimal};
ghost use Rattle.model.specs.Lines.{whole_words, line_words, answer_line, answer_digits, answer_bytes};
ghost use Rattle.text.specs.Digits.{digits_only};
ghost use Rattle.text.specs.Put.{Put};
ghost use Rattle.framing.specs.Frame.{request_at};
ghost use Rattle.framing.specs.Front.{NoFrame, DigitsAhead, NextOf};

use crate::frame::{ORDER_DIGITS, REQUEST_DIGITS, request_ahead};
use model::{Answer, Refusal, Request};
use text::hex::{put_word, word_at};
use text::store::put;

// The digits of an answer's three words, and the bytes of its line.
const ANSWER_DIGITS: usize = 8 * 3;

pub const ANSWER_BYTES: usize = ANSWER_DIGITS + 1;

// The index of the first byte 10, if there is one.
pub fn line_end(s: &[u8]) -> Option<usize>
    ensures { result ≡ position (λ b. b == 10) s.now }
{
    s.iter().position(|b| *b == 10)
}

// What stands at the front of the input: a frame line of some length, with its call; another line of some length; or a line that is not
// over. An enum of its own, since three cases with values of their own, none of them a failure, are neither an Option nor a Result.
#[derive(Clone, Copy)]
pub enum Next {
    Frame {
        len: usize,
        order: u32,
        request: Request,
    },
    Other(usize),
    Partial,
}

// The first line where it is no frame: another line, or one that is not over. The search for a line's end is left to such lines.
fn other(s: &[u8]) -> Next
    requires { NoFrame s.now }
    ensures { NextOf s.now result }
{
    match line_end(s) {
        Some(n) => Next::Other(n),
        None => Next::Partial,
    }
}

// The first line where the digits of a request stand in front: they are a frame where byte 10 ends them, and with a word more where byte 10
// ends that.
fn framed(s: &[u8], request: Request) -> Next
    requires digits_ahead { DigitsAhead s.now }
    requires request_value { request ≡ request_at s.now }
    ensures { NextOf s.now result }
{
    if s[REQUEST_DIGITS] == 10 {
        return Next::Frame {
            len: REQUEST_DIGITS,
            order: 0,
            request,
        };
    }
    if s.len() <= ORDER_DIGITS {
        return other(s);
    }
    let Some(order) = word_at(s, REQUEST_DIGITS) else {
        return other(s);
    };
    if s[ORDER_DIGITS] != 10 {
        return other(s);
    }
    Next::Frame {
        len: ORDER_DIGITS,
        order,
        request,
    }
}

// What stands at the front. Only here and in `framed` it is known which numbers of words a frame has, and byte 10 is looked for behind
// these alone.
pub fn look(s: &[u8]) -> Next
    ensures { NextOf s.now result }
{
    if s.len() <= REQUEST_DIGITS {
        return other(s);
    }
    match request_ahead(s) {
        Some(request) => framed(s, request),
        None => other(s),
    }
}

// Whether a line is whole words: its length first, then word by word. There is no early end, since a settings line is whole words as a rule.
pub fn whole_words(line: &[u8]) -> bool
    ensures { result ≡ whole_words line.now }
{
    if line.len() % 8 != 0 {
        return false;
    }
    let mut all = true;
    for k in 0..line.len() / 8 {
        all &= word_at(line, 8 * k).is_some();
    }
    all
}

// The words of a line, at the front of `words`.
pub fn line_words(line: &[u8], words: &mut [u32])
    requires line_value { digits_only line.now ≡ true }
    requires line_in_bounds { length line.now / 8 ≤ length words.old }
    ensures { take (length line.now / 8) words.new ≡ line_words line.now }
{
    for (k, word) in words[..line.len() / 8].iter_mut().enumerate() {
        *word = word_at(line, 8 * k).unwrap();
    }
}

// The three words of an answer behind what was written. By its two cases, and not word by word as in `Told`: the words that are 0 would be
// made into digits too, and an answer takes a quarter longer.
fn put_words(out: &mut [u8], at: usize, a: Answer)
    requires { at + answer_digits ≤ length out.old }
    ensures { Put out.old out.new at (hexadecimal (answer_words a)) }
{
    match a {
        Ok(value) => {
            put(out, at, b"0000000000000000");
            put_word(out, at + 16, value);
        }
        Err(Refusal { number, place }) => {
            put_word(out, at, number);
            put_word(out, at + 8, place);
            put(out, at + 16, b"00000000");
        }
    }
}

// An answer line behind what was written.
pub fn put_answer(out: &mut [u8], at: usize, a: Answer)
    requires { at + answer_bytes ≤ length out.old }
    ensures { Put out.old out.new at (answer_line a) }
{
    put_words(out, at, a);
    put(out, at + ANSWER_DIGITS, b"\n");
}
