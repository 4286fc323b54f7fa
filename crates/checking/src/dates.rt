// One date of a book: its part of each region is a slice, so that nothing below a date speaks of an address.
ghost use Rattle.std.specs.Prelude.{◌≡◌, ◌*◌, ◌-◌, ◌/◌, ◌≤◌, ◌<◌, true, ℕ, length, get_or};
ghost use Rattle.model.specs.Words.{groups};
ghost use Rattle.units.specs.Ranges.{Ranges};
ghost use Rattle.book.specs.Grids.{Laid};
ghost use Rattle.book.specs.Lent.{reading, Lies};
ghost use Rattle.book.specs.Blocks.{Part, across, block_of};
ghost use Rattle.rules.specs.Rows.{Decides, Padded, Caps, Guests, Ready, row_at};
ghost use Rattle.checking.specs.Days.{Session, Day, Long, Empty};
ghost use Rattle.checking.specs.Kept.{At, Kept};

use book::grid::{Grid, Site};
use book::region::Cells;
use model::{Date, Settings};
use rules::tables::{GUESTS, MEETINGS, ROOMS, VISITORS};
use rules::{row, tables};
use units::{Run, on_dates};

// One session: its standing words, its attend cells, its conf pairs.
fn session(
    stand: &[u32],
    attend: &[u32],
    conf: &[u32],
    bounds: &[u32; VISITORS],
    stands: &mut [bool],
    meetings: u32,
) -> bool
    requires le_meetings { (1 ≤ meetings) × (meetings ≤ 128) }
    requires stand_len { (length stand.now ≡ groups meetings) × (length attend.now ≤ 512) }
    requires stands_len { length stands.old ≡ 129 }
    requires by_index { (j : ℕ) → j < length attend.now → get_or bounds.now j 0 ≤ meetings }
    ensures { Decides result (Session stand.now attend.now conf.now bounds.now (length conf.now / 2) meetings) }
{
    if !row::padded(stand, meetings as usize) {
        return false;
    }
    if row::blank(attend) && row::blank(conf) {
        return true;
    }
    tables::bar(stands, stand);
    row::attends(attend, bounds, stands) && row::pairs(conf, stands, meetings)
}

// One date by its parts: its leave words, hotel cells and lunch triples, the standing words, attend cells and conf pairs of its n sessions,
// one session after the other, and the ride cells of its q times.
#[derive(Drop)]
struct Parts<'a> {
    settings: Settings,
    caps: &'a [u32; ROOMS],
    n: usize,
    q: usize,
    leave: &'a [u32],
    hotel: &'a [u32],
    stand: &'a [u32],
    attend: &'a [u32],
    conf: &'a [u32],
    lunch: &'a [u32],
    ride: &'a [u32],
    ghost ranges: { Ranges settings },
    ghost caps_of: { Caps settings caps.now },
    ghost long: { Long settings n q leave.now hotel.now stand.now attend.now conf.now lunch.now ride.now },
}

impl Parts<'_> {
    // Has the date no entry at all? A date with one mostly shows it in the first words.
    fn is_empty(&self) -> bool
        ensures { result ≡ true → Empty self.now.hotel.now self.now.attend.now self.now.conf.now self.now.lunch.now self.now.ride.now }
    {
        row::blank(self.hotel)
            && row::blank(self.lunch)
            && row::blank(self.attend)
            && row::blank(self.conf)
            && row::blank(self.ride)
    }

    // The unused bits of each session's standing words are 0.
    fn is_padded(&self) -> bool
        ensures { Decides result ((p : ℕ) → p < self.now.n → Padded (row_at (groups self.now.settings.meetings) p self.now.stand.now) self.now.settings.meetings) }
    {
        let meetings = self.settings.meetings as usize;
        let words = (meetings + 31) / 32;
        for row in self.stand.chunks_exact(words) {
            if !row::padded(row, meetings) {
                return false;
            }
        }
        true
    }

    // Each session of the date, by the most that each visitor may hold.
    fn sessions(&self, bounds: &[u32; VISITORS], stands: &mut [bool]) -> bool
        requires stands_len { length stands.old ≡ 129 }
        requires by_index { (j : ℕ) → j < self.now.settings.visitors → get_or bounds.now j 0 ≤ self.now.settings.meetings }
        ensures { Decides result ((p : ℕ) → p < self.now.n → Session (row_at (groups self.now.settings.meetings) p self.now.stand.now)
            (row_at self.now.settings.visitors p self.now.attend.now) (row_at (self.now.settings.rooms * 2) p self.now.conf.now) bounds.now
            self.now.settings.rooms self.now.settings.meetings) }
    {
        let s = self.settings;
        let words = (s.meetings as usize + 31) / 32;
        let stands_of = self.stand.chunks_exact(words);
        let attends = self.attend.chunks_exact(s.visitors as usize);
        let confs = self.conf.chunks_exact((s.rooms as usize) * 2);
        for ((stand, attend), conf) in stands_of.zip(attends).zip(confs) {
            if !session(stand, attend, conf, bounds, stands, s.meetings) {
                return false;
            }
        }
        true
    }

    // Each time of the date: its rides, with the tables of its guests.
    fn rides(&self, guests: &[bool], seen: &mut [bool]) -> bool
        requires { Ready self.now.settings.visitors guests.now seen.old }
        ensures { Decides result ((i : ℕ) → i < self.now.q → Guests (row_at self.now.settings.transports i self.now.ride.now) self.now.settings.visitors guests.now) }
    {
        let limit = self.settings.visitors;
        for row in self.ride.chunks_exact(self.settings.transports as usize) {
            if !row::guest_row(row, guests, seen, limit) {
                return false;
            }
        }
        true
    }

    // The date by its tables.
    fn entries(&self) -> bool
        requires { Padded self.now.leave.now self.now.settings.visitors }
        ensures { Decides result (Day self.now.settings self.now.n self.now.q self.now.caps.now self.now.leave.now self.now.hotel.now
            self.now.stand.now self.now.attend.now self.now.conf.now self.now.lunch.now self.now.ride.now) }
    {
        let s = self.settings;
        let visitors = s.visitors as usize;
        let mut guests = [false; GUESTS];
        tables::bar_past(&mut guests, self.leave, visitors);
        let mut seen = guests;
        if !row::guest_row(self.hotel, &guests, &mut seen, s.visitors) {
            return false;
        }
        let mut bounds = [0; VISITORS];
        tables::bound(&mut bounds, &guests, visitors, s.meetings);
        let mut stands = [false; MEETINGS];
        if !self.sessions(&bounds, &mut stands) {
            return false;
        }
        let words = (s.meetings as usize + 31) / 32;
        tables::bar_date(&mut stands, self.stand, self.n, words);
        if !row::triples(self.lunch, &stands, self.caps, s.dining) {
            return false;
        }
        self.rides(&guests, &mut seen)
    }

    // Does the date keep its laws? No tables are made for one without entries.
    fn is_lawful(&self) -> bool
        ensures { Decides result (Day self.now.settings self.now.n self.now.q self.now.caps.now self.now.leave.now self.now.hotel.now
            self.now.stand.now self.now.attend.now self.now.conf.now self.now.lunch.now self.now.ride.now) }
    {
        if !row::padded(self.leave, self.settings.visitors as usize) {
            return false;
        }
        if self.is_empty() {
            return self.is_padded();
        }
        self.entries()
    }
}

// The rows of a grid in the book from one slot to before another, as a date takes them of seven regions.
fn rows(book: &[u32], grid: Grid, from: u32, to: u32) -> &[u32]
    requires lies { Lies grid (reading book.now) }
    requires from_le_to { (from ≤ to) × (to ≤ grid.slots) }
    ensures { Part result.now ((to - from) * across grid) (block_of grid (reading book.now) from to) }
{
    Cells { words: book, grid }.block(from, to)
}

// Date d of a well-laid book: its row of each region by date, and the rows of its sessions and of its times, as many as there are.
fn date_at(
    book: &[u32],
    site: Site,
    caps: &[u32; ROOMS],
    d: Date,
    sessions: Run<model::Session>,
    times: Run<model::Time>,
) -> bool
    requires at { At site.settings (reading book.now) site.grids d.0 sessions.from.0 sessions.to.0 times.from.0 times.to.0 }
    requires caps { Caps site.settings caps.now }
    ensures { Decides result (Kept site.settings caps.now (reading book.now) d.0) }
{
    let day = d.0;
    let next = day + 1;
    let from = sessions.from.0;
    let to = sessions.to.0;
    let first = times.from.0;
    let last = times.to.0;
    let leave = rows(book, site.grids.leave, day, next);
    let hotel = rows(book, site.grids.hotel, day, next);
    let stand = rows(book, site.grids.standing, from, to);
    let attend = rows(book, site.grids.attend, from, to);
    let conf = rows(book, site.grids.conf, from, to);
    let lunch = rows(book, site.grids.lunch, day, next);
    let ride = rows(book, site.grids.ride, first, last);
    let parts = Parts {
        settings: site.settings,
        caps,
        n: (to - from) as usize,
        q: (last - first) as usize,
        leave,
        hotel,
        stand,
        attend,
        conf,
        lunch,
        ride,
    };
    parts.is_lawful()
}

// Each date of a well-laid book. Which sessions and times are on a date is asked of the date-of functions.
pub fn dates(book: &[u32], site: Site, caps: &[u32; ROOMS]) -> bool
    requires laid { Laid site.settings (reading book.now) }
    requires caps { Caps site.settings caps.now }
    ensures { Decides result ((d : ℕ) → d < site.settings.dates → Kept site.settings caps.now (reading book.now) d) }
{
    for d in 0..site.settings.dates {
        let date = Date(d);
        let sessions = on_dates(site.settings, date, date);
        let times = on_dates(site.settings, date, date);
        if !date_at(book, site, caps, date, sessions, times) {
            return false;
        }
    }
    true
}
