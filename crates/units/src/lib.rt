// The three units: sessions and times have a date. Nothing else turns one unit into another.
//
// That settings are in range is a clause here and wherever slots are counted (`Ranges`), and no type: settings are read from any words, and a
// struct round those in range would stand before each limit that is read from them.
#![tactic(auto)]

ghost use Rattle.std.specs.Prelude.{◌≡◌, ℕ, true, ◌+◌, ◌*◌, ◌-◌, ◌≤◌, ◌<◌, leb};
ghost use Rattle.model.specs.Kinds.{sessions, times, date_of, Unit as SlotUnit};
ghost use Rattle.units.specs.Ranges.{Ranges};
ghost use Rattle.units.specs.Units.{each_of, late_of, day_of, CutOf, Bracket, Passed, Reached, Cut, OnDates};

use model::{Date, Session, Settings, Time};

// The slots of a unit. Each date has equally many of them, but that every date but the first begins some slots later.
pub trait Slot: Copy {
    // which unit of the model it is, and the slot's number there
    ghost unit: { SlotUnit };

    ghost at: { Self → ℕ };

    fn number(self) -> u32
        ensures { result ≡ at self };

    fn numbered(i: u32) -> Self
        ensures { at result ≡ i };

    // How many slots a date has.
    fn each(s: Settings) -> u32
        ensures { result ≡ each_of s unit };

    // How many slots later each date but the first begins.
    fn late(s: Settings) -> u32
        ensures { result ≡ late_of s unit };
}

impl Slot for Session {
    ghost unit = { sessions };

    ghost at = { λ i. i.0 };

    fn number(self) -> u32 {
        self.0
    }

    fn numbered(i: u32) -> Session {
        Session(i)
    }

    fn each(s: Settings) -> u32 {
        s.sessions
    }

    fn late(_s: Settings) -> u32 {
        0
    }
}

impl Slot for Time {
    ghost unit = { times };

    ghost at = { λ i. i.0 };

    fn number(self) -> u32 {
        self.0
    }

    fn numbered(i: u32) -> Time {
        Time(i)
    }

    fn each(s: Settings) -> u32 {
        s.times
    }

    fn late(s: Settings) -> u32 {
        s.early
    }
}

// By how much a slot is behind the late ones of date 0, and 0 for those.
fn behind(i: u32, late: u32) -> u32
    ensures { result ≡ i - late }
{
    if i < late {
        return 0;
    }
    i - late
}

// The early times of a date belong to the date before it, and those of date 0 to date 0.
pub fn date_of<U: Slot>(s: Settings, slot: U) -> Date
    requires { Ranges s }
    ensures { result.0 ≡ date_of s U.unit (U.at slot) }
{
    Date(behind(slot.number(), U::late(s)) / U::each(s))
}

// The date after a date.
pub fn after(d: Date) -> Date
    requires { d.0 < 4294967295 }
    ensures { result.0 ≡ d.0 + 1 }
{
    Date(d.0 + 1)
}

// Where date d begins: in n slots, `each` to a date, but that every date but the first begins `late` slots later (`day_of`). The question is
// one for all units, and knows numbers alone. It is compiled into its callers, all but the search, which is for dates that differ by more than
// late slots, and there are none: a call that is handed a struct has it laid out in memory.
#[derive(Clone, Copy)]
struct Beginning {
    n: u32,
    each: u32,
    late: u32,
    d: u32,
    ghost some: { 1 ≤ each },
    ghost within: { (d * each ≤ n) × (n ≤ 100000) },
}

impl Beginning {
    // Is slot i on date d or later? The question is put without a division: d dates of `each` slots are not behind it.
    fn is_on_or_after(self, i: u32) -> bool
        ensures { result ≡ leb self.d (day_of self.each self.late i) }
    {
        self.d * self.each <= behind(i, self.late)
    }

    // The first slot of from..to on date d or later, and `to` if there is none, by bisection. By hand: the slots are numbers, and
    // `partition_point` bisects a slice.
    fn bisect(self, from: u32, to: u32) -> u32
        requires { Bracket (day_of self.each self.late) self.n self.d from to }
        ensures { CutOf (day_of self.each self.late) self.n self.d result }
    {
        let mut lo = from;
        let mut hi = to;
        while lo < hi {
            let mid = lo + (hi - lo) / 2;
            if self.is_on_or_after(mid) {
                hi = mid;
            } else {
                lo = mid + 1;
            }
        }
        lo
    }

    // A slot with only dates before d before it, in steps that double from a slot down. A loop by hand, as in `reach`: no iterator steps so.
    fn retreat(self, from: u32) -> u32
        requires { from ≤ self.n }
        ensures { Passed (day_of self.each self.late) self.d result from }
    {
        let mut lo = from;
        let mut by: u32 = 1;
        while 0 < lo {
            if !self.is_on_or_after(lo - 1) {
                return lo;
            }
            if lo <= by {
                return 0;
            }
            lo -= by;
            by += by;
        }
        0
    }

    // A slot on date d or later, or the end, in steps that double from a slot up.
    fn reach(self, from: u32) -> u32
        requires { from ≤ self.n }
        ensures { Reached (day_of self.each self.late) self.n self.d from result }
    {
        let mut hi = from;
        let mut by: u32 = 1;
        while hi < self.n {
            if self.is_on_or_after(hi) {
                return hi;
            }
            if self.n - hi <= by {
                return self.n;
            }
            hi += by;
            by += by;
        }
        self.n
    }

    // The first slot on date d or later, looked for around a slot.
    #[cold]
    #[inline(never)]
    fn search(self, from: u32) -> u32
        requires { from ≤ self.n }
        ensures { CutOf (day_of self.each self.late) self.n self.d result }
    {
        let lo = self.retreat(from);
        let hi = self.reach(lo);
        self.bisect(lo, hi)
    }

    // Does date d begin at a slot? The slot before it and the slot itself are asked, where there are such.
    fn is_first(self, at: u32) -> bool
        requires { at ≤ self.n }
        ensures { result ≡ true → CutOf (day_of self.each self.late) self.n self.d at }
    {
        if 0 < at {
            if self.is_on_or_after(at - 1) {
                return false;
            }
        }
        if at < self.n {
            return self.is_on_or_after(at);
        }
        true
    }

    // Where date d begins if the late slots are all that dates differ by.
    fn guess(self) -> u32
        ensures { result ≤ self.n }
    {
        let even = self.d * self.each;
        if even == 0 {
            return 0;
        }
        if self.n - even < self.late {
            self.n
        } else {
            even + self.late
        }
    }

    // The first slot on date d or later: the guess, where it is right, and else what the search finds.
    #[inline(always)]
    fn first(self) -> u32
        ensures { CutOf (day_of self.each self.late) self.n self.d result }
    {
        let at = self.guess();
        if self.is_first(at) {
            return at;
        }
        self.search(at)
    }
}

// The slots from `from` to before `to`.
#[derive(Clone, Copy)]
pub struct Run<U> {
    pub from: U,
    pub to: U,
}

// The first slot on date d or later; the number of slots, if d is behind the last date.
#[inline(always)]
pub fn first_on<U: Slot>(s: Settings, d: Date) -> U
    requires ranges { Ranges s }
    requires d_le_dates { d.0 ≤ s.dates }
    ensures { Cut s U.unit d.0 (U.at result) }
{
    let each = U::each(s);
    let beginning = Beginning {
        n: s.dates * each,
        each,
        late: U::late(s),
        d: d.0,
    };
    U::numbered(beginning.first())
}

// Exactly the slots whose date is in first..last.
#[inline(always)]
pub fn on_dates<U: Slot>(s: Settings, first: Date, last: Date) -> Run<U>
    requires ranges { Ranges s }
    requires first_le_last { first.0 ≤ last.0 }
    requires last_lt_dates { last.0 < s.dates }
    ensures { OnDates s U.unit first.0 last.0 (U.at result.from) (U.at result.to) }
{
    let from = first_on(s, first);
    let to = first_on(s, after(last));
    Run { from, to }
}
