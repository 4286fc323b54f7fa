// The search of a run that has at most three slots, as most requests have. The processor does not foresee where so short a loop ends; so there
// is none: three slots are asked, some of them twice where the run is shorter, and the first no is chosen of what was found. Longer runs are
// left to the loop.
ghost use Rattle.std.specs.Prelude.{ℕ, ◌≡◌, ◌≤◌};
ghost use Rattle.queries.specs.Found.{IsFirst};
ghost use Rattle.questions.specs.Short.{is_short, chosen};

use queries::search::{first_slot, middle_of};

// Has the run one to three slots?
fn is_short(first: u32, last: u32) -> bool
    ensures { result ≡ is_short first last }
{
    if last < first {
        return false;
    }
    last - first <= 2
}

// The first of three slots for which it is so.
fn choose(first: u32, middle: u32, last: u32, x: bool, y: bool, z: bool) -> Option<u32>
    ensures { result ≡ chosen first middle last x y z }
{
    if x {
        return Some(first);
    }
    if y {
        return Some(middle);
    }
    if z {
        return Some(last);
    }
    None
}

// The lowest slot of first..last for which `found` says yes, of a short run without a loop. Compiled into its callers, with the test: a call
// has the cells that are asked laid out in memory.
#[inline(always)]
fn first_soon<F: Fn(u32) -> bool>(first: u32, last: u32, found: F) -> Option<u32>
    requires { (i : ℕ) → first ≤ i → i ≤ last → F.pre found i }
    ensures { IsFirst (F.post found) first last result }
{
    if !is_short(first, last) {
        return first_slot(first, last, found);
    }
    let middle = middle_of(first, last);
    let x = found(first);
    let y = found(middle);
    let z = found(last);
    choose(first, middle, last, x, y, z)
}

// How the lowest slot of a run is looked for.
pub trait Search {
    // The lowest slot of first..last for which `found` says yes.
    fn lowest<F: Fn(u32) -> bool>(first: u32, last: u32, found: F) -> Option<u32>
        requires { (i : ℕ) → first ≤ i → i ≤ last → F.pre found i }
        ensures { IsFirst (F.post found) first last result };
}

// By a loop over the run.
pub struct ByLoop;

impl Search for ByLoop {
    fn lowest<F: Fn(u32) -> bool>(first: u32, last: u32, found: F) -> Option<u32> {
        first_slot(first, last, found)
    }
}

// With no loop where the run is short.
pub struct AtOnce;

impl Search for AtOnce {
    #[inline(always)]
    fn lowest<F: Fn(u32) -> bool>(first: u32, last: u32, found: F) -> Option<u32> {
        first_soon(first, last, found)
    }
}
