// The table of kinds at a site: a row for each way in which the kinds use their fields.
//
// Each row is a function by itself, so that whoever knows the kind asks its questions without a choice by kind, and whether a field is used
// is known before the program runs.
ghost use Rattle.std.specs.Prelude.{◌≡◌};
ghost use Rattle.units.specs.Ranges.{Ranges};
ghost use Rattle.model.specs.Kinds.{row};
ghost use Rattle.model.specs.Kinds.{Kind.add_leave, Kind.add_hotel, Kind.add_ride, Kind.add_standing, Kind.add_attend, Kind.add_conf, Kind.erase_conf};
ghost use Rattle.model.specs.Kinds.{Kind.add_lunch, Kind.erase_lunch, Kind.which_meeting, Kind.count_leave, Kind.seats_left, Kind.free_room};
ghost use Rattle.kinds.specs.Rows.{row_of, plain as plain_row, single as single_row, noted as noted_row};

use model::Settings;

// A row of the table: the limits that the fields a and b stay below, none for one that is not used, the number of slots of the kind's unit,
// whether n and info are used, and whether first = last: three flags, none of which has a value beside it.
#[derive(Clone, Copy)]
pub struct Row {
    pub a: Option<u32>,
    pub b: Option<u32>,
    pub slots: u32,
    pub n: bool,
    pub info: bool,
    pub one: bool,
}

// A row without n and info, with several slots.
fn plain(a: Option<u32>, b: Option<u32>, slots: u32) -> Row
    ensures { result ≡ plain_row a b slots }
{
    Row {
        a,
        b,
        slots,
        n: false,
        info: false,
        one: false,
    }
}

// The same with one slot.
fn single(a: Option<u32>, b: Option<u32>, slots: u32) -> Row
    ensures { result ≡ single_row a b slots }
{
    Row {
        one: true,
        ..plain(a, b, slots)
    }
}

// The same with info, and with n where it says so.
fn noted(a: Option<u32>, b: Option<u32>, slots: u32, n: bool) -> Row
    ensures { result ≡ noted_row a b slots n }
{
    Row {
        n,
        info: true,
        ..plain(a, b, slots)
    }
}

// Kinds 1 to 3.
pub fn visitor_row(s: Settings) -> Row
    ensures { result ≡ row_of s (row add_leave) }
{
    plain(None, Some(s.visitors), s.dates)
}

// Kinds 4 and 5.
pub fn hotel_row(s: Settings) -> Row
    ensures { result ≡ row_of s (row add_hotel) }
{
    plain(Some(s.hotels), Some(s.visitors), s.dates)
}

// Kinds 6 and 7.
pub fn ride_row(s: Settings) -> Row
    requires { Ranges s }
    ensures { result ≡ row_of s (row add_ride) }
{
    plain(Some(s.transports), Some(s.visitors), s.dates * s.times)
}

// Kinds 8 and 9.
pub fn standing_row(s: Settings) -> Row
    requires { Ranges s }
    ensures { result ≡ row_of s (row add_standing) }
{
    plain(Some(s.meetings), None, s.dates * s.sessions)
}

// Kinds 10 and 11.
pub fn attend_row(s: Settings) -> Row
    requires { Ranges s }
    ensures { result ≡ row_of s (row add_attend) }
{
    plain(Some(s.meetings), Some(s.visitors), s.dates * s.sessions)
}

// Kind 12.
pub fn add_conf_row(s: Settings) -> Row
    requires { Ranges s }
    ensures { result ≡ row_of s (row add_conf) }
{
    noted(Some(s.rooms), Some(s.meetings), s.dates * s.sessions, false)
}

// Kinds 13 and 16.
pub fn meeting_row(s: Settings) -> Row
    requires { Ranges s }
    ensures { result ≡ row_of s (row erase_conf) }
{
    plain(None, Some(s.meetings), s.dates * s.sessions)
}

// Kind 14.
pub fn add_lunch_row(s: Settings) -> Row
    ensures { result ≡ row_of s (row add_lunch) }
{
    noted(Some(s.dining), Some(s.meetings), s.dates, true)
}

// Kind 15.
pub fn erase_lunch_row(s: Settings) -> Row
    ensures { result ≡ row_of s (row erase_lunch) }
{
    plain(Some(s.dining), Some(s.meetings), s.dates)
}

// Kind 17.
pub fn which_meeting_row(s: Settings) -> Row
    requires { Ranges s }
    ensures { result ≡ row_of s (row which_meeting) }
{
    single(None, Some(s.visitors), s.dates * s.sessions)
}

// Kind 18.
pub fn count_leave_row(s: Settings) -> Row
    ensures { result ≡ row_of s (row count_leave) }
{
    single(None, None, s.dates)
}

// Kind 19.
pub fn seats_left_row(s: Settings) -> Row
    ensures { result ≡ row_of s (row seats_left) }
{
    single(Some(s.dining), None, s.dates)
}

// Kind 20.
pub fn free_room_row(s: Settings) -> Row
    requires { Ranges s }
    ensures { result ≡ row_of s (row free_room) }
{
    plain(None, None, s.dates * s.sessions)
}
