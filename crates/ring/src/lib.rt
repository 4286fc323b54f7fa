// The ring of kept orders, which stands behind the diary: where an order is kept, the answer to one that is, and keeping one. Every
// function here is lent the tail of a book: the entries, eleven words each, and behind them the next place. That it is as long as a tail is a
// clause of each: a reference to an array of that length would be made of the slice that is lent by a test when it runs. Behind the tail
// stands the change count (`changes`).
#![tactic(auto)]

pub mod changes;
pub mod law;

ghost use Rattle.std.specs.Prelude.{◌≡◌, true, ◌+◌, ◌≤◌, ◌<◌, eqb, length, get_or, drop};
ghost use Rattle.model.specs.Bounded.{lowest};
ghost use Rattle.model.specs.Messages.{request_of, same_request};
ghost use Rattle.model.specs.Tail.{tail_length, tail_of, tail_kept, tail_words, word_of, ring_length, ring_places, entry_at, kept_at, place_after, noted};
ghost use Rattle.model.specs.Machine.{kept_answer};
ghost use Rattle.model.specs.Told.{answer_by, is_answer};
ghost use Rattle.ring.specs.Stores.{entry_put, entry_kept_at};

use model::{Answer, Request, Told, refused};

// The words of an entry: the number of the order, seven words of its request, three of its answer.
pub const ENTRY_WORDS: usize = 11;

// How many orders are kept.
pub const PLACES: u32 = 64;

// Where the next place stands: behind the entries.
pub const NEXT: usize = 704;

// The lowest of the first entries that has the number.
pub fn numbered(tail: &[u32], order: u32, entries: u32) -> Option<u32>
    requires tail_len { length tail.now ≡ tail_length }
    requires entries_le_ring_places { entries ≤ ring_places }
    ensures { result ≡ lowest (λ i. eqb (word_of tail.now i 0) order) 0 entries }
{
    for i in 0..entries {
        if tail[i as usize * ENTRY_WORDS] == order {
            return Some(i);
        }
    }
    None
}

// Where an order is kept; 0 is the number of no order.
pub fn find(tail: &[u32], order: u32) -> Option<u32>
    requires { length tail.now ≡ tail_length }
    ensures { result ≡ kept_at (tail_of tail.now) order }
{
    if order == 0 {
        return None;
    }
    numbered(tail, order, PLACES)
}

// Whether the seven words from a place on are those of the request. They are compared one by one: compared together, they would be loaded
// together, and the choice by kind would wait for it.
fn is_request(tail: &[u32], at: usize, r: Request) -> bool
    requires { at + 7 ≤ length tail.now }
    ensures { result ≡ same_request (request_of (drop at tail.now)) r }
{
    if tail[at] != r.kind {
        return false;
    }
    if tail[at + 1] != r.a {
        return false;
    }
    if tail[at + 2] != r.b {
        return false;
    }
    if tail[at + 3] != r.first {
        return false;
    }
    if tail[at + 4] != r.last {
        return false;
    }
    if tail[at + 5] != r.n {
        return false;
    }
    tail[at + 6] == r.info
}

// The answer to an order that is kept: the one that is kept with it, or 28 if it comes with other words.
pub fn answer_to(tail: &[u32], place: u32, r: Request) -> Answer
    requires tail_len { length tail.now ≡ tail_length }
    requires place_lt_ring_places { place < ring_places }
    ensures { result ≡ kept_answer (entry_at (tail_of tail.now) place) r }
{
    let at = place as usize * ENTRY_WORDS;
    if !is_request(tail, at + 1, r) {
        return refused(28, 0);
    }
    let told = Told {
        number: tail[at + 8],
        place: tail[at + 9],
        value: tail[at + 10],
    };
    told.into()
}

// The eleven words of an entry, from a place on.
fn put_entry(tail: &mut [u32], at: usize, order: u32, r: Request, t: Told)
    requires { at + 11 ≤ length tail.old }
    ensures { tail.new ≡ entry_put tail.old at order r t.number t.place t.value }
{
    let words = [
        order, r.kind, r.a, r.b, r.first, r.last, r.n, r.info, t.number, t.place, t.value,
    ];
    tail[at..at + ENTRY_WORDS].copy_from_slice(&words);
}

// The place after a place: behind the last comes the first.
fn place_after(i: u32) -> u32
    requires { i < ring_places }
    ensures { result ≡ place_after i }
{
    if i + 1 == PLACES {
        return 0;
    }
    i + 1
}

// An entry at the next place, and the place after it.
fn keep(tail: &mut [u32], order: u32, r: Request, t: Told)
    requires tail_len { length tail.old ≡ tail_length }
    requires ring_length_bound { get_or tail.old ring_length 0 < ring_places }
    ensures { tail.new ≡ entry_kept_at tail.old order r t.number t.place t.value }
{
    let next = tail[NEXT];
    put_entry(tail, next as usize * ENTRY_WORDS, order, r, t);
    tail[NEXT] = place_after(next);
}

// Keeps an order that the ring does not have, with its request and the answer; without an order nothing is written.
pub fn note(tail: &mut [u32], order: u32, r: Request, t: Told)
    requires tail_len { length tail.old ≡ tail_length }
    requires tail_value { tail_kept tail.old ≡ true }
    requires t_value { is_answer t ≡ true }
    ensures { tail.new ≡ tail_words (noted (tail_of tail.old) order r (answer_by t)) }
{
    if order == 0 {
        return;
    }
    keep(tail, order, r, t);
}
