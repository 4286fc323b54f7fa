// Checking a book: questions 1 and 2 in one pass over its words, date by date, and then the ring.
#![tactic(auto)]

mod dates;

ghost use Rattle.std.specs.Prelude.{◌≡◌, true};
ghost use Rattle.model.specs.Laws.{well_laid, diary_laid, lawful, diary_lawful};
ghost use Rattle.model.specs.Calls;

use book::grid::site_of;
use header::settings;
use model::{Answer, refused};
use ring::law;
use rules::tables;

// Question 2 of a diary that passes question 1.
fn diary_lawful(book: &[u32]) -> bool
    requires { diary_laid book.now ≡ true }
    ensures { result ≡ diary_lawful book.now }
{
    let s = settings::settings(book);
    let caps = tables::caps_of(s);
    let site = site_of(s);
    dates::dates(book, site, &caps)
}

// Question 2 of a book that passes question 1: its diary, then the ring behind it. Of the last word, the change count, nothing is asked.
fn book_lawful(book: &[u32]) -> bool
    requires { well_laid book.now ≡ true }
    ensures { result ≡ lawful book.now }
{
    let n = settings::diary_len(settings::settings(book));
    if !diary_lawful(&book[..n]) {
        return false;
    }
    law::kept(&book[n..book.len() - 1])
}

// Questions 1 and 2: done with 0 for a book that passes both.
pub fn check(book: &[u32]) -> Answer
    ensures { result ≡ Calls.check book.now }
{
    if !settings::well_laid(book) {
        return refused(1, 0);
    }
    if !book_lawful(book) {
        return refused(2, 0);
    }
    Ok(0)
}
