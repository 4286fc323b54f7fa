// One row of a region: its cells within their limits, not barred, and each guest once. Most loops have no branch per cell.
ghost use Rattle.std.specs.Prelude.{◌≡◌, true, false, ℕ, ◌+◌, ◌*◌, ◌≤◌, ◌<◌, length, get_or, fold, bit_or, ◌==◌, ◌/◌};
ghost use Rattle.std.specs.List.{list_all};
ghost use Rattle.model.specs.Words.{groups};
ghost use Rattle.rules.specs.Rows.{Decides, Blank, Ready, Past, Marked, Free, Guests, Attended, Paired, Padded, Lunches};

use crate::tables::{GUESTS, ROOMS, VISITORS};

// How many words of a row are looked at together.
const PART: usize = 128;

// The words or-ed together.
fn joined(row: &[u32]) -> u32
    ensures { result ≡ fold bit_or 0 row.now }
{
    row.iter().fold(0, |all, word| all | word)
}

// Are the words of each part all zeros?
fn zeros(parts: &[[u32; PART]]) -> bool
    ensures { result ≡ list_all (λ part. fold bit_or 0 part == 0) parts.now }
{
    parts.iter().all(|part| joined(part) == 0)
}

// Is the row all zeros? A part at a time, so that an empty row costs little and a full one next to nothing.
pub fn blank(row: &[u32]) -> bool
    ensures { result ≡ true → Blank row.now }
{
    let (parts, rest) = row.as_chunks::<PART>();
    zeros(parts) && joined(rest) == 0
}

// Both tables bar what is past the limit, so that the entries up to it make them the same.
fn copy(seen: &mut [bool], table: &[bool], limit: usize)
    requires limit_in_bounds { (limit < length table.now) × (length seen.old ≡ length table.now) }
    requires past { Past limit table.now }
    requires past_2 { Past limit seen.old }
    ensures { seen.new ≡ table.now }
{
    seen[..=limit].copy_from_slice(&table[..=limit]);
}

// No cell barred, and no visitor twice in the row: a visitor that was seen is barred from then on. An empty cell never is, so that
// entry 0 is cleared again.
fn guests(row: &[u32], seen: &mut [bool]) -> bool
    requires by_index { (i : ℕ) → i < length row.now → get_or row.now i 0 < length seen.old }
    requires seen_nonzero { 0 < length seen.old }
    requires false_value { get_or seen.old 0 false ≡ false }
    ensures decides { Decides result (Free row.now seen.old) }
    ensures marked { Marked seen.old seen.new }
{
    let mut bad = false;
    for cell in row {
        let k = *cell as usize;
        bad |= seen[k];
        seen[k] = true;
        seen[0] = false;
    }
    !bad
}

// Hotel and ride: each cell within the limit and not barred, and no visitor twice in the row. What was seen is kept in a table of its own,
// which bars what is past the limit at all times. No limit is asked of a cell: words within it are below 1024, and so are all of them
// or-ed together; each word below 1024 has its entry.
pub fn guest_row(row: &[u32], table: &[bool], seen: &mut [bool], limit: u32) -> bool
    requires { Ready limit table.now seen.old }
    ensures decides { Decides result (Guests row.now limit table.now) }
    ensures past { Past limit seen.new }
{
    let all = joined(row);
    if all == 0 {
        return true;
    }
    if GUESTS <= all as usize {
        return false;
    }
    copy(seen, table, limit as usize);
    guests(row, seen)
}

// The unused bits of a row of n bits are 0. A row of a multiple of 32 bits has none.
pub fn padded(row: &[u32], n: usize) -> bool
    requires { (1 ≤ n) × (n ≤ 512) × (length row.now ≡ groups n) }
    ensures { Decides result (Padded row.now n) }
{
    let last = row[row.len() - 1];
    let used = (n % 32) as u32;
    if used == 0 {
        return true;
    }
    last >> used == 0
}

// Each cell within its column's bound.
fn bounded(row: &[u32], bounds: &[u32; VISITORS]) -> bool
    requires { length row.now ≤ 512 }
    ensures { Decides result ((i : ℕ) → i < length row.now → get_or row.now i 0 ≤ get_or bounds.now i 0) }
{
    let mut bad = false;
    for (cell, most) in row.iter().zip(bounds.iter()) {
        bad |= most < cell;
    }
    !bad
}

// No cell's meeting is barred.
fn stood(row: &[u32], stands: &[bool]) -> bool
    requires { (i : ℕ) → i < length row.now → get_or row.now i 0 < length stands.now }
    ensures { Decides result ((i : ℕ) → i < length row.now → get_or stands.now (get_or row.now i 0) false ≡ false) }
{
    let mut bad = false;
    for cell in row {
        bad |= stands[*cell as usize];
    }
    !bad
}

// Attend: each cell within its column's bound, and its meeting not barred.
pub fn attends(row: &[u32], bounds: &[u32; VISITORS], stands: &[bool]) -> bool
    requires row_len_bound { length row.now ≤ 512 }
    requires by_index { (j : ℕ) → j < length row.now → get_or bounds.now j 0 < length stands.now }
    ensures { Decides result (Attended row.now bounds.now stands.now) }
{
    bounded(row, bounds) && stood(row, stands)
}

// Conf: each pair within the limit, its meeting not barred, and a zero beside an empty cell.
pub fn pairs(row: &[u32], stands: &[bool], limit: u32) -> bool
    requires { limit < length stands.now }
    ensures { Decides result (Paired row.now (length row.now / 2) limit stands.now) }
{
    let (pairs, _) = row.as_chunks::<2>();
    let mut bad = false;
    for pair in pairs {
        let [w, info] = *pair;
        if limit < w {
            return false;
        }
        bad |= stands[w as usize] | (w == 0) & (info != 0);
    }
    !bad
}

// No sum over its capacity; entry 0 is of no room.
fn within(sums: &[u32; ROOMS], caps: &[u32; ROOMS]) -> bool
    ensures { Decides result ((g : ℕ) → g < 17 → get_or sums.now g 0 ≤ get_or caps.now g 0) }
{
    sums.iter().zip(caps.iter()).all(|(sum, cap)| *sum <= *cap)
}

// Lunch: each triple within the limits, its meeting not barred, zeros beside an empty cell, and the seats of each room within its
// capacity. Seats are bounded before they are added.
pub fn triples(row: &[u32], table: &[bool], caps: &[u32; ROOMS], dining: u32) -> bool
    requires few { (length row.now / 3 ≤ 128) × (length row.now / 3 < length table.now) × (dining ≤ 16) }
    requires by_index { (g : ℕ) → get_or caps.now g 0 ≤ 1000 }
    ensures { Decides result (Lunches row.now (length row.now / 3) dining caps.now table.now) }
{
    let (triples, _) = row.as_chunks::<3>();
    let mut sums = [0; ROOMS];
    for (m, triple) in triples.iter().enumerate() {
        let [w, seats, info] = *triple;
        if dining < w {
            return false;
        }
        let room = w as usize;
        if caps[room] < seats {
            return false;
        }
        let bad = (w == 0) & (info != 0) | (w != 0) & ((seats == 0) | table[m + 1]);
        if bad {
            return false;
        }
        sums[room] += seats;
    }
    within(&sums, caps)
}
