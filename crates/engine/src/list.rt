// Lists of requests: seven words a request, or eight with the number of its order, and three words an answer. The book is checked or
// laid once; that each step keeps the laws is what lets the next one go without a check.
ghost use Rattle.std.specs.Prelude.{◌≡◌, [], ◌∷◌, ◌+◌, ◌*◌, ◌/◌, ◌≤◌, min, length, get_or, take, drop};
ghost use Rattle.model.specs.Machine;
ghost use Rattle.model.specs.Messages.{request_length, order_length, request_of};
ghost use Rattle.model.specs.Machine.{ordered};
ghost use Rattle.model.specs.Words.{diary_length};
ghost use Rattle.model.specs.Ledger.{ledger_of};
ghost use Rattle.model.specs.Calls.{called, call_list, serve_list};
ghost use Rattle.book.specs.Good.{GoodBook, answered};
ghost use Rattle.engine.specs.Lists.{spliced, One, All, as_listed};

use header::lay::lay;
use header::settings::{diary_len, settings};
use model::{Answer, Request, Settings, Told};
use step::told_step;

// The words of a request, and those of a request with its order.
const REQUEST_WORDS: usize = 7;

const ORDER_WORDS: usize = 8;

// The request at a place of a list.
fn request_at(list: &[u32], at: usize) -> Request
    requires { at + 7 ≤ length list.now }
    ensures { result ≡ request_of (drop at list.now) }
{
    let mut words = [0; REQUEST_WORDS];
    words.copy_from_slice(&list[at..at + REQUEST_WORDS]);
    words.into()
}

// The number of its order: 0 where a request has seven words.
fn order_at(list: &[u32], at: usize, width: usize) -> u32
    requires le_width { (7 ≤ width) × (width ≤ 8) }
    requires width_in_bounds { at + width ≤ length list.now }
    ensures { result ≡ get_or (take width (drop at list.now)) 7 0 }
{
    if width == REQUEST_WORDS {
        return 0;
    }
    list[at + 7]
}

// The three words of answer i.
fn put_words(answers: &mut [u32], i: usize, t: Told)
    requires { i * 3 + 3 ≤ length answers.old }
    ensures { answers.new ≡ spliced answers.old (i * 3) (t.number ∷ t.place ∷ t.value ∷ []) }
{
    let at = i * 3;
    answers[at..at + 3].copy_from_slice(&[t.number, t.place, t.value]);
}

// Request i of the list, and its answer.
fn answer_at(
    book: &mut [u32],
    s: Settings,
    diary: usize,
    list: &[u32],
    width: usize,
    answers: &mut [u32],
    i: usize,
)
    requires good_book { GoodBook s book.old }
    requires diary_value { diary ≡ diary_length s }
    requires le_width { (7 ≤ width) × (width ≤ 8) }
    requires width_in_bounds { i * width + width ≤ length list.now }
    requires i_in_bounds { i * 3 + 3 ≤ length answers.old }
    ensures { One width list.now i book.old answers.old book.new answers.new }
{
    let at = i * width;
    let order = order_at(list, at, width);
    let r = request_at(list, at);
    let told = told_step(book, s, diary, order, r);
    put_words(answers, i, told);
}

// The first n requests of the list, and their answers.
fn answer_all(
    book: &mut [u32],
    s: Settings,
    list: &[u32],
    width: usize,
    answers: &mut [u32],
    n: usize,
)
    requires good_book { GoodBook s book.old }
    requires le_width { (7 ≤ width) × (width ≤ 8) }
    requires width_in_bounds { n * width ≤ length list.now }
    requires n_in_bounds { n * 3 ≤ length answers.old }
    ensures { All width list.now n book.old answers.old book.new answers.new }
{
    let diary = diary_len(s);
    for i in 0..n {
        answer_at(book, s, diary, list, width, answers, i);
    }
}

// One request on a good book, as a list of one: whatever judges and writes goes through the loop above, which has the only call of
// `told_step`, so that the compiler puts the step into it. The eight words stand one by one: the seven that `From` makes would have to be copied
// to get the order behind them.
pub fn answer_one(book: &mut [u32], s: Settings, order: u32, r: Request) -> Answer
    requires { GoodBook s book.old }
    ensures { answered result book.new ≡ called (Machine.perform (ledger_of book.old) (ordered order r)) }
{
    let list = [r.kind, r.a, r.b, r.first, r.last, r.n, r.info, order];
    let mut words = [0u32; 3];
    answer_all(book, s, &list, ORDER_WORDS, &mut words, 1);
    let [number, place, value] = words;
    let told = Told {
        number,
        place,
        value,
    };
    told.into()
}

// How many requests of a list of `words` words are answered in `room` words.
fn answerable_in(words: usize, width: usize, room: usize) -> usize
    requires { (7 ≤ width) × (width ≤ 8) }
    ensures { result ≡ min (min (words / width) (room / 3)) 4294967295 }
{
    (words / width).min(room / 3).min(4294967295)
}

// Each request of the list as it would be answered by itself, after one check of the book. The answer is done with their number.
fn answer_list(book: &mut [u32], list: &[u32], width: usize, answers: &mut [u32]) -> Answer
    requires { (7 ≤ width) × (width ≤ 8) }
    ensures { as_listed result book.new answers.new ≡ call_list width book.old list.now answers.old }
{
    checking::check(book)?;
    let s = settings(book);
    let n = answerable_in(list.len(), width, answers.len());
    answer_all(book, s, list, width, answers, n);
    Ok(n as u32)
}

// `requests` and `orders` here, `serve` and `serve_orders` below, are what callers in C have, one for each width. The width goes on as a number:
// a const parameter would make a loop for each, and the compiler puts `told_step` into a loop only where it is called once (docs/DECISIONS, "One
// call of the step").
//
// Requests of seven words, each as `request` would answer it.
pub fn requests(book: &mut [u32], list: &[u32], answers: &mut [u32]) -> Answer
    ensures { as_listed result book.new answers.new
        ≡ call_list request_length book.old list.now answers.old }
{
    answer_list(book, list, REQUEST_WORDS, answers)
}

// Requests of eight words, the last the number of its order, each as `order` would answer it.
pub fn orders(book: &mut [u32], list: &[u32], answers: &mut [u32]) -> Answer
    ensures { as_listed result book.new answers.new
        ≡ call_list order_length book.old list.now answers.old }
{
    answer_list(book, list, ORDER_WORDS, answers)
}

// Lays the book and answers the list: the answers and every word of the book are the diary machine's.
fn serve_list(
    words: &[u32],
    book: &mut [u32],
    list: &[u32],
    width: usize,
    answers: &mut [u32],
) -> Answer
    requires { (7 ≤ width) × (width ≤ 8) }
    ensures { as_listed result book.new answers.new
        ≡ serve_list width words.now book.old list.now answers.old }
{
    lay(words, book)?;
    let s = settings(words);
    let count = answerable_in(list.len(), width, answers.len());
    answer_all(book, s, list, width, answers, count);
    Ok(count as u32)
}

// The same with requests of seven words, and with requests of eight.
pub fn serve(words: &[u32], book: &mut [u32], list: &[u32], answers: &mut [u32]) -> Answer
    ensures { as_listed result book.new answers.new
        ≡ serve_list request_length words.now book.old list.now answers.old }
{
    serve_list(words, book, list, REQUEST_WORDS, answers)
}

pub fn serve_orders(words: &[u32], book: &mut [u32], list: &[u32], answers: &mut [u32]) -> Answer
    ensures { as_listed result book.new answers.new
        ≡ serve_list order_length words.now book.old list.now answers.old }
{
    serve_list(words, book, list, ORDER_WORDS, answers)
}
