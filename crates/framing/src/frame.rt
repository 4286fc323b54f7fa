// The words of a frame, each read as a whole.
ghost use Rattle.std.specs.Prelude.{◌≡◌, ◌≤◌, length};
ghost use Rattle.framing.specs.Frame.{request_digits, request_in};

use model::Request;
use text::hex::word_at;

// The digits of a request's seven words, and those with the number of its order behind them.
pub const REQUEST_DIGITS: usize = 8 * 7;

pub const ORDER_DIGITS: usize = REQUEST_DIGITS + 8;

// The request of the first seven words, if all their bytes are digits.
pub fn request_ahead(s: &[u8]) -> Option<Request>
    requires { request_digits ≤ length s.now }
    ensures { result ≡ request_in s.now }
{
    let kind = word_at(s, 0);
    let a = word_at(s, 8);
    let b = word_at(s, 16);
    let first = word_at(s, 24);
    let last = word_at(s, 32);
    let n = word_at(s, 40);
    let info = word_at(s, 48);
    // One test of all words and not `?` at each: lines of frames then take a sixth longer, since each branch parts words that are read side
    // by side. `all` over an array of the seven would branch at each too.
    let all = kind.is_some()
        & a.is_some()
        & b.is_some()
        & first.is_some()
        & last.is_some()
        & n.is_some()
        & info.is_some();
    if !all {
        return None;
    }
    Some(Request {
        kind: kind.unwrap(),
        a: a.unwrap(),
        b: b.unwrap(),
        first: first.unwrap(),
        last: last.unwrap(),
        n: n.unwrap(),
        info: info.unwrap(),
    })
}
