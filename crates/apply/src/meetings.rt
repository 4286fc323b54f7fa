// Kinds 8 to 16: the writes of an accepted request about meetings, who attends them, their rooms and their lunches. As in `visitors`.
ghost use Rattle.std.specs.Prelude.{◌≡◌, true};
ghost use Rattle.model.specs.Machine.{step};
ghost use Rattle.model.specs.Words.{words};
ghost use Rattle.model.specs.Reading.{state_of};
ghost use Rattle.book.specs.Good.{Good};
ghost use Rattle.book.specs.Lent.{reading};
ghost use Rattle.apply.specs.Accepted.{accepted};

use crate::sets;
use crate::sets::{add, drop, entry, take, turn};
use book::grid::Site;
use model::{Request, Session};

// Kind 8: a meeting stands.
pub fn add_standing(book: &mut [u32], site: Site, r: Request)
    requires good { Good site.settings (reading book.old) }
    requires r_value { accepted (step (state_of (reading book.old)) r).answer ≡ true }
    requires kind_value { r.kind ≡ 8 }
    ensures { reading book.new ≡ words (step (state_of (reading book.old)) r).state }
{
    turn(book, site.grids.standing, true, r.a, r.first, r.last);
}

// Kind 9: a meeting no longer stands.
pub fn end_standing(book: &mut [u32], site: Site, r: Request)
    requires good { Good site.settings (reading book.old) }
    requires r_value { accepted (step (state_of (reading book.old)) r).answer ≡ true }
    requires kind_value { r.kind ≡ 9 }
    ensures { reading book.new ≡ words (step (state_of (reading book.old)) r).state }
{
    sets::end_standing(book, site.grids, r.a, Session(r.first), Session(r.last));
}

// Kind 10: a visitor attends a meeting.
pub fn add_attend(book: &mut [u32], site: Site, r: Request)
    requires good { Good site.settings (reading book.old) }
    requires r_value { accepted (step (state_of (reading book.old)) r).answer ≡ true }
    requires kind_value { r.kind ≡ 10 }
    ensures { reading book.new ≡ words (step (state_of (reading book.old)) r).state }
{
    let c = entry(r.a, 0, 0);
    add(book, site.grids.attend, r.b, c, r.first, r.last);
}

// Kind 11: a visitor no longer attends a meeting.
pub fn erase_attend(book: &mut [u32], site: Site, r: Request)
    requires good { Good site.settings (reading book.old) }
    requires r_value { accepted (step (state_of (reading book.old)) r).answer ≡ true }
    requires kind_value { r.kind ≡ 11 }
    ensures { reading book.new ≡ words (step (state_of (reading book.old)) r).state }
{
    take(book, site.grids.attend, r.b, r.first, r.last);
}

// Kind 12: a meeting gets a conference room.
pub fn add_conf(book: &mut [u32], site: Site, r: Request)
    requires good { Good site.settings (reading book.old) }
    requires r_value { accepted (step (state_of (reading book.old)) r).answer ≡ true }
    requires kind_value { r.kind ≡ 12 }
    ensures { reading book.new ≡ words (step (state_of (reading book.old)) r).state }
{
    let c = entry(r.b, r.info, 0);
    add(book, site.grids.conf, r.a, c, r.first, r.last);
}

// Kind 13: a meeting gives back its conference rooms.
pub fn erase_conf(book: &mut [u32], site: Site, r: Request)
    requires good { Good site.settings (reading book.old) }
    requires r_value { accepted (step (state_of (reading book.old)) r).answer ≡ true }
    requires kind_value { r.kind ≡ 13 }
    ensures { reading book.new ≡ words (step (state_of (reading book.old)) r).state }
{
    drop(book, site.grids.conf, r.b, r.first, r.last);
}

// Kind 14: a meeting gets a lunch.
pub fn add_lunch(book: &mut [u32], site: Site, r: Request)
    requires good { Good site.settings (reading book.old) }
    requires r_value { accepted (step (state_of (reading book.old)) r).answer ≡ true }
    requires kind_value { r.kind ≡ 14 }
    ensures { reading book.new ≡ words (step (state_of (reading book.old)) r).state }
{
    let c = entry(r.a, r.n, r.info);
    add(book, site.grids.lunch, r.b, c, r.first, r.last);
}

// Kind 15: a meeting gives back a lunch.
pub fn erase_lunch(book: &mut [u32], site: Site, r: Request)
    requires good { Good site.settings (reading book.old) }
    requires r_value { accepted (step (state_of (reading book.old)) r).answer ≡ true }
    requires kind_value { r.kind ≡ 15 }
    ensures { reading book.new ≡ words (step (state_of (reading book.old)) r).state }
{
    take(book, site.grids.lunch, r.b, r.first, r.last);
}

// Kind 16: a meeting gives back its conference rooms and lunches.
pub fn erase_conf_and_lunch(book: &mut [u32], site: Site, r: Request)
    requires good { Good site.settings (reading book.old) }
    requires r_value { accepted (step (state_of (reading book.old)) r).answer ≡ true }
    requires kind_value { r.kind ≡ 16 }
    ensures { reading book.new ≡ words (step (state_of (reading book.old)) r).state }
{
    sets::erase_conf_and_lunch(book, site, r.b, Session(r.first), Session(r.last));
}
