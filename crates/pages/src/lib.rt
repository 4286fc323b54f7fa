// The porter's page: for one date a line for each session and conference room in use, at the front of a lent page.
#![tactic(auto)]

mod counts;
mod lines;
mod tally;

ghost use Rattle.std.specs.Prelude.{◌≡◌, ◌<◌};
ghost use Rattle.model.specs.Page;
ghost use Rattle.model.specs.Reading.{state_of};
ghost use Rattle.book.specs.Lent.{reading};
ghost use Rattle.pages.specs.Pages.{paged, fitted};

use book::diary::Diary;
use book::site::site_of;
use header::settings::{diary_len, settings};
use model::{Answer, Date, Session, refused};
use units::on_dates;

// The lines of a date of a good diary, if the page is long enough for them: this is known before the first byte is written.
fn fill(diary: Diary<'_>, date: Date, page: &mut [u8]) -> Answer
    requires { date.0 < diary.site.settings.dates }
    ensures { paged result page.new ≡ fitted (state_of (reading diary.entry.words.now)) date.0 page.old }
{
    let run = on_dates::<Session>(diary.site.settings, date, date);
    let n = counts::lines_between(diary, run.from, run.to);
    if page.len() < n as usize * lines::LINE_BYTES {
        return refused(26, 0);
    }
    lines::put_sessions(diary, run.from, run.to, page);
    Ok(n)
}

// The page of a date from any words as a book: questions 1, 2, 7 and 26.
pub fn page(book: &[u32], date: u32, page: &mut [u8]) -> Answer
    ensures { paged result page.new ≡ Page.page book.now date page.old }
{
    checking::check(book)?;
    let s = settings(book);
    if date >= s.dates {
        return refused(7, 0);
    }
    let n = diary_len(s);
    let diary = Diary {
        words: &book[..n],
        site: site_of(s),
    };
    fill(diary, Date(date), page)
}
