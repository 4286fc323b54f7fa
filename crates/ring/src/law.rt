// The law of the ring: question 2 of what stands behind the diary. The numbers are compared in pairs, each with those before it.
ghost use Rattle.std.specs.Prelude.{◌≡◌, ◌<◌, ◌==◌, length};
ghost use Rattle.std.specs.List.{list_all};
ghost use Rattle.model.specs.Tail.{tail_length, tail_kept, entry_kept, ring_places};

use crate::{ENTRY_WORDS, NEXT, PLACES, numbered};

// Whether the words are zeros.
fn all_zero(words: &[u32]) -> bool
    ensures { result ≡ list_all (λ word. word == 0) words.now }
{
    words.iter().all(|word| *word == 0)
}

// The law of one entry: all zeros without a number; with one, a number that no entry before has, and an answer that is done or refused.
fn entry_kept(tail: &[u32], i: u32) -> bool
    requires tail_len { length tail.now ≡ tail_length }
    requires i_lt_ring_places { i < ring_places }
    ensures { result ≡ entry_kept tail.now i }
{
    let at = i as usize * ENTRY_WORDS;
    let order = tail[at];
    if order == 0 {
        return all_zero(&tail[at..at + ENTRY_WORDS]);
    }
    if let Some(_) = numbered(tail, order, i) {
        return false;
    }
    if tail[at + 8] == 0 {
        return tail[at + 9] == 0;
    }
    tail[at + 10] == 0
}

// Each entry, and the next place.
pub fn kept(tail: &[u32]) -> bool
    requires { length tail.now ≡ tail_length }
    ensures { result ≡ tail_kept tail.now }
{
    for i in 0..PLACES {
        if !entry_kept(tail, i) {
            return false;
        }
    }
    tail[NEXT] < PLACES
}
