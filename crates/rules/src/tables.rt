// Tables of one date: which members are barred, the most that a column may hold, the capacities.
ghost use Rattle.std.specs.Prelude.{◌≡◌, ℕ, ◌+◌, ◌*◌, ◌≤◌, ◌<◌, length, get_or};
ghost use Rattle.rules.specs.Rows.{Barred, Past, Most, ors, Columns, BarredDate, Caps};

use model::Settings;

// How many visitors a site can have at most.
pub const VISITORS: usize = 512;

// How many entries a table of visitors has: one for an empty cell, one for each visitor, and more up to a power of two (`row::guest_row`).
pub const GUESTS: usize = 1024;

// How many entries a table of meetings has: one for an empty cell, and one for each of the most meetings that a site can have.
pub const MEETINGS: usize = 129;

// How many entries a table of dining rooms has: one for no room, and one for each of the most rooms that a site can have.
pub const ROOMS: usize = 17;

// How many words of bits the meetings of a site take at most.
const WORDS: usize = 4;

// A table of a row of bits: entry 0 is false, entry v + 1 says that bit v is clear. A cell holds its member plus 1, or 0 for
// none, so that a cell is the index of its entry.
// By index: a word has thirty-two entries, and of parts that are lent by `chunks_mut` the library does not say what they end as.
pub fn bar(table: &mut [bool], row: &[u32])
    requires { length row.now * 32 < length table.old }
    ensures { Barred row.now (length row.now * 32) table.new }
{
    table[0] = false;
    for (i, word) in row.iter().enumerate() {
        let w = *word;
        for bit in 0..32 {
            table[i * 32 + bit as usize + 1] = !pool::has(w, bit);
        }
    }
}

// The table of a row of n bits that bars what is past n as well: a word past its limit needs no question of its own.
pub fn bar_past(table: &mut [bool], row: &[u32], n: usize)
    requires row_in_bounds { length row.now * 32 < length table.old }
    requires n_in_bounds { n ≤ length row.now * 32 }
    ensures { Barred row.now n table.new × Past n table.new }
{
    bar(table, row);
    table[n + 1..].fill(true);
}

// For each of n columns the most that its cell may hold: the limit, or 0 where the table bars it.
pub fn bound(bounds: &mut [u32], table: &[bool], n: usize, limit: u32)
    requires { (n ≤ length bounds.old) × (n < length table.now) }
    ensures { Most table.now n limit bounds.new }
{
    for (v, most) in bounds[..n].iter_mut().enumerate() {
        *most = if table[v + 1] { 0 } else { limit };
    }
}

// Word k of n rows, or-ed together. By index: of each row one word is read, which has an index in the row as well.
fn column(rows: &[u32], n: usize, width: usize, k: usize) -> u32
    requires { (k < width) × (n * width ≤ length rows.now) }
    ensures { result ≡ ors (λ p. get_or rows.now (p * width + k) 0) n }
{
    let mut all = 0;
    for p in 0..n {
        all |= rows[p * width + k];
    }
    all
}

// The rows of bits, or-ed together: bits that stand in some row.
fn columns(rows: &[u32], n: usize, width: usize) -> [u32; WORDS]
    requires { (width ≤ 4) × (n * width ≤ length rows.now) }
    ensures { Columns rows.now n width width result }
{
    let mut words = [0; WORDS];
    for (k, word) in words[..width].iter_mut().enumerate() {
        *word = column(rows, n, width, k);
    }
    words
}

// The table of the meetings that stand in no session of a date.
pub fn bar_date(table: &mut [bool], rows: &[u32], n: usize, width: usize)
    requires { (width ≤ 4) × (n * width ≤ length rows.now) × (128 < length table.old) }
    ensures { BarredDate rows.now n width table.new }
{
    let words = columns(rows, n, width);
    bar(table, &words);
}

// 0 for no room, then the capacities.
pub fn caps_of(s: Settings) -> [u32; ROOMS]
    requires { (length s.capacities ≡ 16) × ((g : ℕ) → get_or s.capacities g 0 ≤ 1000) }
    ensures { Caps s result }
{
    let seats = s.capacities;
    let mut caps = [0; ROOMS];
    caps[1..].copy_from_slice(&seats);
    caps
}
