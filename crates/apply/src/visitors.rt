// Kinds 1, 2 and 4 to 7: the writes of an accepted request about a visitor's leave, hotel rooms or rides.
//
// The book afterwards is the words of the machine's state. Kind 3 is not among these: its value is what `removal` counts as it erases.
// A function for each kind, of one line, which is all that its kind adds: one function of all kinds would ask again which kind it is.
ghost use Rattle.std.specs.Prelude.{◌≡◌, true};
ghost use Rattle.model.specs.Machine.{step};
ghost use Rattle.model.specs.Words.{words};
ghost use Rattle.model.specs.Reading.{state_of};
ghost use Rattle.book.specs.Good.{Good};
ghost use Rattle.book.specs.Lent.{reading};
ghost use Rattle.apply.specs.Accepted.{accepted};

use crate::sets::{add, entry, take, turn};
use book::grid::Site;
use model::Request;

// Kind 1: a visitor gets leave.
pub fn add_leave(book: &mut [u32], site: Site, r: Request)
    requires good { Good site.settings (reading book.old) }
    requires r_value { accepted (step (state_of (reading book.old)) r).answer ≡ true }
    requires kind_value { r.kind ≡ 1 }
    ensures { reading book.new ≡ words (step (state_of (reading book.old)) r).state }
{
    turn(book, site.grids.leave, true, r.b, r.first, r.last);
}

// Kind 2: a visitor's leave ends.
pub fn end_leave(book: &mut [u32], site: Site, r: Request)
    requires good { Good site.settings (reading book.old) }
    requires r_value { accepted (step (state_of (reading book.old)) r).answer ≡ true }
    requires kind_value { r.kind ≡ 2 }
    ensures { reading book.new ≡ words (step (state_of (reading book.old)) r).state }
{
    turn(book, site.grids.leave, false, r.b, r.first, r.last);
}

// Kind 4: a visitor gets a hotel room.
pub fn add_hotel(book: &mut [u32], site: Site, r: Request)
    requires good { Good site.settings (reading book.old) }
    requires r_value { accepted (step (state_of (reading book.old)) r).answer ≡ true }
    requires kind_value { r.kind ≡ 4 }
    ensures { reading book.new ≡ words (step (state_of (reading book.old)) r).state }
{
    let c = entry(r.b, 0, 0);
    add(book, site.grids.hotel, r.a, c, r.first, r.last);
}

// Kind 5: a hotel room is given back.
pub fn erase_hotel(book: &mut [u32], site: Site, r: Request)
    requires good { Good site.settings (reading book.old) }
    requires r_value { accepted (step (state_of (reading book.old)) r).answer ≡ true }
    requires kind_value { r.kind ≡ 5 }
    ensures { reading book.new ≡ words (step (state_of (reading book.old)) r).state }
{
    take(book, site.grids.hotel, r.a, r.first, r.last);
}

// Kind 6: a visitor gets a ride.
pub fn add_ride(book: &mut [u32], site: Site, r: Request)
    requires good { Good site.settings (reading book.old) }
    requires r_value { accepted (step (state_of (reading book.old)) r).answer ≡ true }
    requires kind_value { r.kind ≡ 6 }
    ensures { reading book.new ≡ words (step (state_of (reading book.old)) r).state }
{
    let c = entry(r.b, 0, 0);
    add(book, site.grids.ride, r.a, c, r.first, r.last);
}

// Kind 7: a ride is given back.
pub fn erase_ride(book: &mut [u32], site: Site, r: Request)
    requires good { Good site.settings (reading book.old) }
    requires r_value { accepted (step (state_of (reading book.old)) r).answer ≡ true }
    requires kind_value { r.kind ≡ 7 }
    ensures { reading book.new ≡ words (step (state_of (reading book.old)) r).state }
{
    take(book, site.grids.ride, r.a, r.first, r.last);
}
