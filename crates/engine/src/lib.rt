// Requests on a book: a request on any words, with or without an order, what it would be answered, a request at a change count, a list of
// requests, and a list from a freshly laid book.
#![tactic(auto)]

pub mod list;

ghost use Rattle.std.specs.Prelude.{◌≡◌};
ghost use Rattle.model.specs.Calls.{call, call_order, call_ask, call_commit};
ghost use Rattle.model.specs.Removal.{RemovalKept, OrderedRemovalKept};
ghost use Rattle.book.specs.Good.{answered};
ghost use Rattle.engine.specs.Lists.{as_asked};

use crate::list::answer_one;
use header::settings::{diary_len, settings};
use model::{Answer, Asked, Request, refused};
use ring::changes;
use step::foresee;

// A request with the number of its order on any list of words: questions 1, 2 and 28, the answer that is kept with an order that is, and
// else one step of the machine from what the book shows. An accepted removal, where the order was not kept before, takes exactly the
// visitor's leave and bookings on its dates.
pub fn order(book: &mut [u32], order: u32, r: Request) -> Answer
    ensures call { answered result book.new ≡ call_order book.old order r }
    ensures removal { OrderedRemovalKept book.old order r result book.new }
{
    checking::check(book)?;
    let s = settings(book);
    answer_one(book, s, order, r)
}

// A request without an order: nothing is kept.
pub fn request(book: &mut [u32], r: Request) -> Answer
    ensures call { answered result book.new ≡ call book.old r }
    ensures removal { RemovalKept book.old r result book.new }
{
    order(book, 0, r)
}

// The answer that a request without an order would get, and the change count beside it. The book is lent to be read only, and of its ring
// nothing is asked but that it is lawful.
pub fn ask(book: &[u32], r: Request) -> Asked
    ensures { as_asked result book.now ≡ call_ask book.now r }
{
    if let Err(refusal) = checking::check(book) {
        return Asked {
            answer: Err(refusal),
            count: 0,
        };
    }
    let s = settings(book);
    let answer = foresee(book, s, diary_len(s), r);
    Asked {
        answer,
        count: changes::count(book),
    }
}

// A request without an order, if the change count is still the one that is named: questions 1, 2 and 29, and then as `request`.
pub fn commit(book: &mut [u32], count: u32, r: Request) -> Answer
    ensures call { answered result book.new ≡ call_commit book.old count r }
    ensures removal { RemovalKept book.old r result book.new }
{
    checking::check(book)?;
    if changes::count(book) != count {
        return refused(29, 0);
    }
    let s = settings(book);
    answer_one(book, s, 0, r)
}
