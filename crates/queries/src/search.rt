// The lowest slot of a run for which something is so, and the slot in the middle of a run of three.
ghost use Rattle.std.specs.Prelude.{ℕ, ◌≡◌, ◌≤◌};
ghost use Rattle.queries.specs.Found.{IsFirst, middle_of};

// The lowest slot of first..last for which `found` says yes.
pub fn first_slot<F: Fn(u32) -> bool>(first: u32, last: u32, found: F) -> Option<u32>
    requires { (i : ℕ) → first ≤ i → i ≤ last → F.pre found i }
    ensures { IsFirst (F.post found) first last result }
{
    for i in first..=last {
        if found(i) {
            return Some(i);
        }
    }
    None
}

// The slot between the two; the last one where there is none.
pub fn middle_of(first: u32, last: u32) -> u32
    ensures { result ≡ middle_of first last }
{
    if last <= first {
        return last;
    }
    first + 1
}
