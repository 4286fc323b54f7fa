// One request on a good diary, where every question is answered before the first word is written, and on a good book with its ring and
// its change count; and the answer that a request would get, by reading alone.
#![tactic(auto)]

pub mod carry;

ghost use Rattle.std.specs.Prelude.{◌≡◌, ◌&&◌, eqb};
ghost use Rattle.model.specs.Machine;
ghost use Rattle.model.specs.Machine.{most_changes, counted_step, ordered};
ghost use Rattle.model.specs.Bounded.{within};
ghost use Rattle.model.specs.Words.{diary_length};
ghost use Rattle.model.specs.Reading.{settings_of, state_of};
ghost use Rattle.model.specs.Ledger.{ledger_of};
ghost use Rattle.model.specs.Calls.{called};
ghost use Rattle.book.specs.Good.{Good, GoodBook, answered, in_words};
ghost use Rattle.book.specs.Lent.{reading};
ghost use Rattle.ring.specs.Telling.{Telling};

use apply::meetings::{
    add_attend, add_conf, add_lunch, add_standing, end_standing, erase_attend, erase_conf,
    erase_conf_and_lunch, erase_lunch,
};
use apply::visitors::{add_hotel, add_leave, add_ride, end_leave, erase_hotel, erase_ride};
use book::diary::Diary;
use book::grid::site_of;
use carry::{carry_out, nothing, remove_visitor};
use header::settings::{diary_len, settings};
use judge::{asking, judge, meetings, visitors};
use model::{Answer, Request, Settings, Told, refused};
use ring::changes::{MOST_CHANGES, count, raise};
use ring::{answer_to, find, note};

// Question 3, and the one choice by kind: each arm judges with the kind's own row and questions, by the function of `judge`, and makes the
// kind's own writes, by the function of `apply`. The answer is put into words in each arm, so that words are what the arms have in common. By
// number, as in `judge::judge`.
pub fn step(book: &mut [u32], s: Settings, r: Request) -> Told
    requires { Good s (reading book.old) }
    ensures { Telling result (reading book.new) (in_words (Machine.step (state_of (reading book.old)) r)) }
{
    match r.kind {
        1 => carry_out(book, s, r, visitors::add_leave, add_leave).into(),
        2 => carry_out(book, s, r, visitors::end_leave, end_leave).into(),
        3 => remove_visitor(book, s, r).into(),
        4 => carry_out(book, s, r, visitors::add_hotel, add_hotel).into(),
        5 => carry_out(book, s, r, visitors::erase_hotel, erase_hotel).into(),
        6 => carry_out(book, s, r, visitors::add_ride, add_ride).into(),
        7 => carry_out(book, s, r, visitors::erase_ride, erase_ride).into(),
        8 => carry_out(book, s, r, meetings::add_standing, add_standing).into(),
        9 => carry_out(book, s, r, meetings::end_standing, end_standing).into(),
        10 => carry_out(book, s, r, meetings::add_attend, add_attend).into(),
        11 => carry_out(book, s, r, meetings::erase_attend, erase_attend).into(),
        12 => carry_out(book, s, r, meetings::add_conf, add_conf).into(),
        13 => carry_out(book, s, r, meetings::erase_conf, erase_conf).into(),
        14 => carry_out(book, s, r, meetings::add_lunch, add_lunch).into(),
        15 => carry_out(book, s, r, meetings::erase_lunch, erase_lunch).into(),
        16 => carry_out(
            book,
            s,
            r,
            meetings::erase_conf_and_lunch,
            erase_conf_and_lunch,
        )
        .into(),
        17 => carry_out(book, s, r, asking::which_meeting, nothing).into(),
        18 => carry_out(book, s, r, asking::count_leave, nothing).into(),
        19 => carry_out(book, s, r, asking::seats_left, nothing).into(),
        20 => carry_out(book, s, r, asking::free_room, nothing).into(),
        _ => Told {
            number: 3,
            place: 0,
            value: 0,
        },
    }
}

// Whether a kind counts as a change: 1 to 16 do, 17 to 20 only ask.
fn is_change(kind: u32) -> bool
    ensures { result ≡ within 1 16 kind }
{
    (1 <= kind) & (kind <= 16)
}

// Whether a request of this kind would have to raise a count that cannot rise.
fn is_full(changes: u32, kind: u32) -> bool
    ensures { result ≡ (within 1 16 kind && eqb changes most_changes) }
{
    is_change(kind) & (changes == MOST_CHANGES)
}

// The answer that a request without an order would get on a whole book, by reading alone. Question 30 comes last: a change that all others
// let pass is refused where the count cannot rise.
pub fn foresee(book: &[u32], s: Settings, diary: usize, r: Request) -> Answer
    requires good_book { GoodBook s book.now }
    requires diary_value { diary ≡ diary_length s }
    ensures { result ≡ (counted_step (ledger_of book.now).diary (ledger_of book.now).changes r).answer }
{
    let site = site_of(s);
    let words = &book[..diary];
    let value = judge(Diary { words, site }, r)?;
    if is_full(count(book), r.kind) {
        return refused(30, 0);
    }
    Ok(value)
}

// The same of the book and the numbers alone, where a change would be one too many. A struct that a call hands over is laid out in memory
// for it: here this is done for such a request, in `counted_step` it would be done for every one.
fn foretell(
    book: &[u32],
    kind: u32,
    a: u32,
    b: u32,
    first: u32,
    last: u32,
    n: u32,
    info: u32,
) -> Answer
    requires { GoodBook (settings_of book.now) book.now }
    ensures { result ≡ (counted_step (ledger_of book.now).diary (ledger_of book.now).changes
        (record { kind = kind; a = a; b = b; first = first; last = last; n = n; info = info })).answer }
{
    let s = settings(book);
    let r = Request {
        kind,
        a,
        b,
        first,
        last,
        n,
        info,
    };
    foresee(book, s, diary_len(s), r)
}

// A request without an order on a whole book. A change that is done raises the count; where it cannot rise nothing is written, and the
// answer is had by reading, whatever the kind: the kind is not looked at before the choice by kind.
fn counted_step(book: &mut [u32], s: Settings, diary: usize, r: Request) -> Told
    requires good_book { GoodBook s book.old }
    requires diary_value { diary ≡ diary_length s }
    ensures { Telling result book.new (called (Machine.perform (ledger_of book.old) (ordered 0 r))) }
{
    let changes = count(book);
    if changes == MOST_CHANGES {
        return foretell(book, r.kind, r.a, r.b, r.first, r.last, r.n, r.info).into();
    }
    let told = step(&mut book[..diary], s, r);
    if told.number != 0 {
        return told;
    }
    if is_change(r.kind) {
        raise(book, changes);
    }
    told
}

// A request on a whole book, with the number of its order, 0 for none, and the words of its answer. The first `diary` words are the diary;
// the ring stands behind them, and the change count is the last word. An order that is kept is answered from the ring; else the request is
// carried out, and an order is kept with its answer. There is one call of `step`, so that the compiler puts it into the loops above. The book,
// its settings and the length of its diary are three parameters, here and in `engine::list`: a struct of them would be laid out in memory for
// each request.
pub fn told_step(book: &mut [u32], s: Settings, diary: usize, order: u32, r: Request) -> Told
    requires good_book { GoodBook s book.old }
    requires diary_value { diary ≡ diary_length s }
    ensures { Telling result book.new (called (Machine.perform (ledger_of book.old) (ordered order r))) }
{
    let last = book.len() - 1;
    if let Some(place) = find(&book[diary..last], order) {
        return answer_to(&book[diary..last], place, r).into();
    }
    let told = counted_step(book, s, diary, r);
    note(&mut book[diary..last], order, r, told);
    told
}

// The same with the answer itself.
pub fn book_step(book: &mut [u32], s: Settings, diary: usize, order: u32, r: Request) -> Answer
    requires good_book { GoodBook s book.old }
    requires diary_value { diary ≡ diary_length s }
    ensures { answered result book.new ≡ called (Machine.perform (ledger_of book.old) (ordered order r)) }
{
    told_step(book, s, diary, order, r).into()
}
