// The lines of a page, one behind another: each function is told where its first byte goes, and tells where the next one does.
ghost use Rattle.std.specs.Prelude.{◌≡◌, ◌++◌, ◌+◌, ◌*◌, ◌≤◌, ◌<◌, length};
ghost use Rattle.model.specs.Site.{all_sessions};
ghost use Rattle.model.specs.Text.{decimal_field};
ghost use Rattle.model.specs.Page.{line_bytes, page_bytes, room_line, session_lines};
ghost use Rattle.model.specs.Reading.{state_of};
ghost use Rattle.text.specs.Put.{Put};
ghost use Rattle.book.specs.Lent.{reading};
ghost use Rattle.pages.specs.Pages.{Tally, Written, between, line_of};

use crate::tally::tally;
use book::diary::Diary;
use model::Session;
use text::decimal::put_decimal;
use text::store::put;

// Thirty characters and a byte 10.
pub const LINE_BYTES: usize = 31;

// Which room, when, and for which meeting.
fn put_place(page: &mut [u8], at: usize, session: u32, room: u32, meeting: u32)
    requires { at + 13 ≤ length page.old }
    ensures { Put page.old page.new at (decimal_field 5 session ++ (decimal_field 4 room ++ decimal_field 4 meeting)) }
{
    put_decimal(page, at, 5, session);
    put_decimal(page, at + 5, 4, room);
    put_decimal(page, at + 9, 4, meeting);
}

// A line, which ends with byte 10.
fn put_line(
    page: &mut [u8],
    at: usize,
    session: u32,
    room: u32,
    meeting: u32,
    visitors: u32,
    info: u32,
)
    requires { at + 31 ≤ length page.old }
    ensures { Put page.old page.new at (line_bytes (line_of session room meeting visitors info)) }
{
    put_place(page, at, session, room, meeting);
    put_decimal(page, at + 13, 6, visitors);
    put_decimal(page, at + 19, 11, info);
    put(page, at + 30, b"\n");
}

// The line of a room in a session, if a meeting holds it.
fn put_room(
    diary: Diary<'_>,
    table: &[u32],
    session: Session,
    room: u32,
    page: &mut [u8],
    at: usize,
) -> usize
    requires tally { Tally (state_of (reading diary.words.now)) session.0 table.now }
    requires session_bound { (session.0 < all_sessions diary.site.settings) × (room < diary.site.settings.rooms) }
    requires room_in_bounds { at + 31 * length (room_line (state_of (reading diary.words.now)) session.0 room) ≤ length page.old }
    ensures { Written page.old page.new at (room_line (state_of (reading diary.entry.words.now)) session.0 room) result }
{
    let conf = diary.conf();
    let w = conf.cell(session.0, room);
    if w == 0 {
        return at;
    }
    let info = conf.word(session.0, room, 1);
    put_line(page, at, session.0, room, w - 1, table[w as usize], info);
    at + LINE_BYTES
}

// The lines of a session, by room.
fn put_session(diary: Diary<'_>, session: Session, page: &mut [u8], at: usize) -> usize
    requires session_bound { session.0 < all_sessions diary.site.settings }
    requires session_in_bounds { at + 31 * length (session_lines (state_of (reading diary.words.now)) session.0) ≤ length page.old }
    ensures { Written page.old page.new at (session_lines (state_of (reading diary.entry.words.now)) session.0) result }
{
    let table = tally(diary, session);
    let mut next = at;
    for room in 0..diary.site.settings.rooms {
        next = put_room(diary, &table, session, room, page, next);
    }
    next
}

// The lines of the sessions from `from` to before `to`, at the front of the page.
pub fn put_sessions(diary: Diary<'_>, from: Session, to: Session, page: &mut [u8])
    requires from_le_to { (from.0 ≤ to.0) × (to.0 ≤ all_sessions diary.site.settings) }
    requires to_in_bounds { 31 * length (between (state_of (reading diary.words.now)) from.0 to.0) ≤ length page.old }
    ensures { Put page.old page.new 0 (page_bytes (between (state_of (reading diary.entry.words.now)) from.0 to.0)) }
{
    let mut at: usize = 0;
    for i in from.0..to.0 {
        at = put_session(diary, Session(i), page, at);
    }
}
