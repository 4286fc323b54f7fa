// The settings at the head of a book, and question 1: limits, early times and capacities in range, and the length that they ask for.
ghost use Rattle.std.specs.Prelude.{◌≡◌, ◌<◌, ◌==◌, nat_lt, cond, length, get_or};
ghost use Rattle.model.specs.Bounded.{all, within, list};
ghost use Rattle.model.specs.Site.{valid_settings};
ghost use Rattle.model.specs.Words.{diary_length};
ghost use Rattle.model.specs.Reading.{settings_of};
ghost use Rattle.model.specs.Ledger.{book_length};
ghost use Rattle.model.specs.Laws.{well_laid};
ghost use Rattle.model.specs.Calls.{settings_good};
ghost use Rattle.units.specs.Ranges.{Ranges};
ghost use Rattle.header.specs.Heads.{seat_of, seat_good, needed_length};

use book::grid;
use book::grid::{FIXED_WORDS, settings_len};
use model::Settings;

// How many words a book keeps behind its diary: 64 orders of eleven words, the next place, and the change count.
pub const BEHIND_WORDS: usize = 706;

// Word i, and 0 where there is none.
fn word(words: &[u32], i: usize) -> u32
    ensures { result ≡ get_or words.now i 0 }
{
    words.get(i).copied().unwrap_or(0)
}

// The capacity of dining room g, and 0 where there is no such room.
fn seat(words: &[u32], dining: u32, g: usize) -> u32
    requires { g < 16 }
    ensures { result ≡ seat_of words.now dining g }
{
    if dining <= g as u32 {
        return 0;
    }
    word(words, FIXED_WORDS + g)
}

// A loop: `array::from_fn` was tried, and the proof did not close: its clause `at` tells of a call on some captures, not on these.
fn seats(words: &[u32], dining: u32) -> [u32; 16]
    ensures { result ≡ list (seat_of words.now dining) 16 }
{
    let mut all = [0; 16];
    for g in 0..16 {
        all[g] = seat(words, dining, g);
    }
    all
}

// The settings that stand first in a list of words; a word that is not there counts as 0.
pub fn settings(words: &[u32]) -> Settings
    ensures { result ≡ settings_of words.now }
{
    let dining = word(words, 6);
    Settings {
        dates: word(words, 0),
        sessions: word(words, 1),
        times: word(words, 2),
        visitors: word(words, 3),
        meetings: word(words, 4),
        rooms: word(words, 5),
        dining,
        hotels: word(words, 7),
        transports: word(words, 8),
        early: word(words, 9),
        capacities: seats(words, dining),
    }
}

fn in_range(x: u32, most: u32) -> bool
    ensures { result ≡ within 1 most x }
{
    (1 <= x) & (x <= most)
}

// Is the capacity of dining room g in its range, or 0 where there is no such room?
fn seat_good(dining: u32, g: u32, cap: u32) -> bool
    ensures { result ≡ cond (nat_lt g dining) (within 1 1000 cap) (cap == 0) }
{
    if g < dining {
        in_range(cap, 1000)
    } else {
        cap == 0
    }
}

// Each capacity is in its range, and those that are not used are 0.
fn seats_good(s: Settings) -> bool
    requires { length s.capacities ≡ 16 }
    ensures { result ≡ all (seat_good s) 16 }
{
    (0..16)
        .zip(s.capacities.iter())
        .all(|(g, cap)| seat_good(s.dining, g, *cap))
}

// Every limit and capacity is in its range, and there are fewer early times than times of a date.
pub fn valid(s: Settings) -> bool
    requires { length s.capacities ≡ 16 }
    ensures { result ≡ valid_settings s }
{
    let slots = in_range(s.dates, 400) & in_range(s.sessions, 16) & in_range(s.times, 96);
    let people = in_range(s.visitors, 512) & in_range(s.meetings, 128);
    let rooms = in_range(s.rooms, 64) & in_range(s.dining, 16) & in_range(s.hotels, 512);
    slots & people & rooms & in_range(s.transports, 128) & (s.early < s.times) & seats_good(s)
}

// Where the diary of a book ends, under settings in range: behind its last region.
pub fn diary_len(s: Settings) -> usize
    requires { Ranges s }
    ensures { result ≡ diary_length s }
{
    let grids = grid::grids_of(s);
    grid::past(grids.ride)
}

// The length of a book under settings in range.
pub fn length_of(s: Settings) -> usize
    requires { Ranges s }
    ensures { result ≡ book_length s }
{
    diary_len(s) + BEHIND_WORDS
}

// Question 24: are these words settings, of their own length and with all ranges kept?
pub fn settings_good(words: &[u32]) -> bool
    ensures { result ≡ settings_good words.now }
{
    if words.len() < FIXED_WORDS {
        return false;
    }
    let s = settings(words);
    if words.len() != settings_len(s) {
        return false;
    }
    valid(s)
}

// The length of the book that settings ask for, and none for settings that question 24 refuses.
pub fn book_len(words: &[u32]) -> Option<usize>
    ensures { result ≡ needed_length words.now }
{
    if !settings_good(words) {
        return None;
    }
    Some(length_of(settings(words)))
}

// Question 1.
pub fn well_laid(book: &[u32]) -> bool
    ensures { result ≡ well_laid book.now }
{
    if book.len() < FIXED_WORDS {
        return false;
    }
    let s = settings(book);
    if !valid(s) {
        return false;
    }
    book.len() == length_of(s)
}
