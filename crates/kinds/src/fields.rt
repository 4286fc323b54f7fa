// Questions 4 to 7, asked of the words of a request and the row of its kind.
ghost use Rattle.std.specs.Prelude.{◌≡◌};
ghost use Rattle.kinds.specs.Rows.{left_over, below, unused_zero, slots_fit, fields_no, passed};

use crate::table::Row;
use model::{Refusal, Request, refused};

// What a word leaves over for question 4: nothing where its field is used.
fn left_over(used: bool, w: u32) -> u32
    ensures { result ≡ left_over used w }
{
    if used {
        return 0;
    }
    w
}

// Question 4: one test of all unused fields together.
#[tactic(auto, using(crate::proofs::Limits::unused_by))]
fn unused_zero(w: Row, a: u32, b: u32, n: u32, info: u32) -> bool
    ensures { result ≡ unused_zero w a b n info }
{
    let fields = left_over(w.a.is_some(), a) as u64 + left_over(w.b.is_some(), b) as u64;
    fields + left_over(w.n, n) as u64 + left_over(w.info, info) as u64 == 0
}

// Questions 5 and 6: is a word below its field's limit, where the field is used?
fn is_below(limit: Option<u32>, w: u32) -> bool
    ensures { result ≡ below limit w }
{
    limit.is_none_or(|l| w < l)
}

// Question 7.
#[tactic(auto, unfolding(crate::specs::Rows::slots_fit))]
fn slots_fit(slots: u32, one: bool, first: u32, last: u32) -> bool
    ensures { result ≡ slots_fit slots one first last }
{
    first <= last && last < slots && (!one || first == last)
}

// Questions 4 to 7, which a row puts to the words of a request: the first no refuses it.
#[tactic(auto, unfolding(crate::specs::Rows::fields_no))]
pub fn fields(row: Row, r: Request) -> Result<(), Refusal>
    ensures { result ≡ passed (fields_no row r) }
{
    if !unused_zero(row, r.a, r.b, r.n, r.info) {
        return refused(4, 0);
    }
    if !is_below(row.a, r.a) {
        return refused(5, 0);
    }
    if !is_below(row.b, r.b) {
        return refused(6, 0);
    }
    if !slots_fit(row.slots, row.one, r.first, r.last) {
        return refused(7, 0);
    }
    Ok(())
}
