// The engine for C and Rust: a function for each call, since a name of C has one signature. Every function takes any words: none has a
// `requires`. A request and an answer go in and out as `model`'s own structs, whose fields lie as C lays them.
#![tactic(auto)]

ghost use Rattle.std.specs.Prelude.{◌≡◌, cond};
ghost use Rattle.model.specs.Messages.{answer_words, request_length, order_length};
ghost use Rattle.model.specs.Reading.{settings_of};
ghost use Rattle.model.specs.Ledger.{book_length};
ghost use Rattle.model.specs.Calls;
ghost use Rattle.model.specs.Calls.{settings_good};
ghost use Rattle.model.specs.Page;
ghost use Rattle.model.specs.Charge;
ghost use Rattle.model.specs.Charge.{charged_words};
ghost use Rattle.capi.specs.Answers.{words_of, charge_of, Tells, TellsAsked, TellsList, TellsPage};

use checking::check;
use engine::list;
use header::lay::lay;
use header::settings::book_len;
use model::{Asked, Charged, Guest, Request, Tariff, Told};
use parties::party;

// What asking gives: the three words of an answer, and the change count.
#[repr(C)]
#[derive(Clone, Copy)]
pub struct AskedWords {
    pub number: u32,
    pub place: u32,
    pub value: u32,
    pub count: u32,
}

impl From<Asked> for AskedWords {
    ghost use Rattle.model.specs.Machine.{asked, reply_words};
    ghost use Rattle.capi.specs.Answers.{asked_words_of};

    ghost from_gives = { λ a w. asked_words_of w ≡ reply_words (asked a.answer a.count) };

    fn from(a: Asked) -> AskedWords {
        let told = Told::from(a.answer);
        AskedWords {
            number: told.number,
            place: told.place,
            value: told.value,
            count: a.count,
        }
    }
}

// How many words the book of these settings has, and 0 for settings that question 24 refuses: C is told one number, and no book has 0
// words.
#[unsafe(no_mangle)]
pub extern "C" fn caviar_book_len(settings: &[u32]) -> u64
    ensures { result ≡ cond (settings_good settings.now) (book_length (settings_of settings.now)) 0 }
{
    book_len(settings).unwrap_or(0) as u64
}

// Questions 24 and 25, and a fresh book under the settings.
#[unsafe(no_mangle)]
pub extern "C" fn caviar_lay(settings: &[u32], book: &mut [u32]) -> Told
    ensures { Tells (Calls.lay settings.now book.old) result book.new }
{
    lay(settings, book).into()
}

// Questions 1 and 2.
#[unsafe(no_mangle)]
pub extern "C" fn caviar_check(book: &[u32]) -> Told
    ensures { words_of result ≡ answer_words (Calls.check book.now) }
{
    check(book).into()
}

// One request on any words.
#[unsafe(no_mangle)]
pub extern "C" fn caviar_request(book: &mut [u32], request: Request) -> Told
    ensures { Tells (Calls.call book.old request) result book.new }
{
    engine::request(book, request).into()
}

// A request with the number of its order, 0 for none: an order that is kept gets its first answer, and nothing changes.
#[unsafe(no_mangle)]
pub extern "C" fn caviar_order(book: &mut [u32], order: u32, request: Request) -> Told
    ensures { Tells (Calls.call_order book.old order request) result book.new }
{
    engine::order(book, order, request).into()
}

// A list of requests on any words, seven a request; three words an answer.
#[unsafe(no_mangle)]
pub extern "C" fn caviar_requests(book: &mut [u32], requests: &[u32], answers: &mut [u32]) -> Told
    ensures { TellsList (Calls.call_list request_length book.old requests.now answers.old)
        result book.new answers.new }
{
    list::requests(book, requests, answers).into()
}

// The same with orders: eight words each, the number of the order last.
#[unsafe(no_mangle)]
pub extern "C" fn caviar_orders(book: &mut [u32], orders: &[u32], answers: &mut [u32]) -> Told
    ensures { TellsList (Calls.call_list order_length book.old orders.now answers.old)
        result book.new answers.new }
{
    list::orders(book, orders, answers).into()
}

// Laying, and a list of requests from fresh.
#[unsafe(no_mangle)]
pub extern "C" fn caviar_serve(
    settings: &[u32],
    book: &mut [u32],
    requests: &[u32],
    answers: &mut [u32],
) -> Told
    ensures { TellsList (Calls.serve_list request_length settings.now book.old requests.now answers.old)
        result book.new answers.new }
{
    list::serve(settings, book, requests, answers).into()
}

// The same with orders.
#[unsafe(no_mangle)]
pub extern "C" fn caviar_serve_orders(
    settings: &[u32],
    book: &mut [u32],
    orders: &[u32],
    answers: &mut [u32],
) -> Told
    ensures { TellsList (Calls.serve_list order_length settings.now book.old orders.now answers.old)
        result book.new answers.new }
{
    list::serve_orders(settings, book, orders, answers).into()
}

// What a request without an order would be answered, and the change count of the book; the book is only read.
#[unsafe(no_mangle)]
pub extern "C" fn caviar_ask(book: &[u32], request: Request) -> AskedWords
    ensures { TellsAsked (Calls.call_ask book.now request) result book.now }
{
    engine::ask(book, request).into()
}

// A request without an order, if the change count is the one that is named.
#[unsafe(no_mangle)]
pub extern "C" fn caviar_commit(book: &mut [u32], count: u32, request: Request) -> Told
    ensures { Tells (Calls.call_commit book.old count request) result book.new }
{
    engine::commit(book, count, request).into()
}

// The porter's page of a date, from any words as a book: its lines at the front of the lent page.
#[unsafe(no_mangle)]
pub extern "C" fn caviar_page(book: &[u32], date: u32, page: &mut [u8]) -> Told
    ensures { TellsPage (Page.page book.now date page.old) result page.new }
{
    pages::page(book, date, page).into()
}

// A party: all its guests are to attend the meeting, or none. The guests are lent, three words each.
#[unsafe(no_mangle)]
pub extern "C" fn caviar_party(book: &mut [u32], meeting: u32, guests: &[Guest]) -> Told
    ensures { Tells (Calls.call_party book.old meeting guests.now) result book.new }
{
    party(book, meeting, guests).into()
}

// What a meeting is charged: a number, which is 0 where the call is done, a place, and a value of 64 bits, the cents.
#[repr(C)]
#[derive(Clone, Copy)]
pub struct ChargedWords {
    pub number: u32,
    pub place: u32,
    pub value: u64,
}

impl From<Charged> for ChargedWords {
    ghost use Rattle.model.specs.Charge.{charged_words};
    ghost use Rattle.capi.specs.Answers.{charge_of};

    ghost from_gives = { λ c w. charge_of w ≡ charged_words c };

    fn from(c: Charged) -> ChargedWords {
        match c {
            Ok(value) => ChargedWords {
                number: 0,
                place: 0,
                value,
            },
            Err(e) => ChargedWords {
                number: e.number,
                place: e.place,
                value: 0,
            },
        }
    }
}

// What a meeting costs over the dates first..last by a tariff, from any words as a book.
#[unsafe(no_mangle)]
pub extern "C" fn caviar_charge(
    book: &[u32],
    meeting: u32,
    first: u32,
    last: u32,
    tariff: Tariff,
) -> ChargedWords
    ensures { charge_of result ≡ charged_words (Charge.charge book.now meeting first last tariff) }
{
    charges::charge(book, meeting, first, last, tariff).into()
}
