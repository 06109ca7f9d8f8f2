// Listing the places of a row by clause and by literal, before a search: the latest place of a literal stands at the head of its list.
ghost use Rattle.std.specs.Prelude.{◌≡◌, ℕ, ◌+◌, ◌<◌, ◌≤◌, length, get_or, slice_index, slice_index_or, slice_set};
ghost use Rattle.propagation.specs.Occurrences.{nowhere, literal_at, first_other, second_other, Headed, Linked, Paired, Listed};

use crate::literal::key_of;
use crate::occurrence::Occurrence;
use crate::row::Row;

// Puts a place at the head of a literal's list, and answers what stood there.
fn put(lasts: &mut [u16], k: usize, p: u16) -> u16
    requires fits { p < 9216 }
    ensures was_there { result ≡ slice_index lasts.old k }
    ensures is_there { lasts.new ≡ slice_set lasts.old k (p + 1) }
{
    // A test and an index: `get_mut` says nothing of what the slice ends as.
    if k >= lasts.len() {
        return 0;
    }
    let before = lasts[k];
    lasts[k] = p + 1;
    before
}

// The first place of a clause other than this one, and the second.
fn first_other(from: usize, p: usize) -> usize
    requires few { from ≤ 9216 }
    ensures is_the_first_other { result ≡ first_other from p }
{
    if p == from { from + 1 } else { from }
}

fn second_other(from: usize, p: usize) -> usize
    requires few { from ≤ 9216 }
    ensures is_the_second_other { result ≡ second_other from p }
{
    if p <= from + 1 { from + 2 } else { from + 1 }
}

// The literal at a place of a clause; past its end one that is false in every setting, and no option, as in `Occurrence`.
fn literal_at(literals: &[i16], to: usize, q: usize) -> i16
    requires inside { to ≤ length literals.now }
    ensures is_the_literal_there { result ≡ literal_at literals.now to q }
{
    if q < to { literals[q] } else { i16::MAX }
}

// The places of one clause.
fn list_clause(
    literals: &[i16],
    lasts: &mut [u16],
    places: &mut [Occurrence],
    from: usize,
    to: usize,
)
    requires rising { from ≤ to }
    requires inside { to ≤ length literals.now }
    requires few { length literals.now ≤ 9216 }
    requires space { length literals.now ≤ length places.old }
    requires headed { Headed literals.now lasts.old from }
    requires linked { Linked literals.now (length lasts.old) places.old from }
    requires paired { Paired literals.now places.old from }
    ensures headed { Headed literals.now lasts.new to }
    ensures linked { Linked literals.now (length lasts.old) places.new to }
    ensures paired { Paired literals.now places.new to }
    ensures spanned { (p : ℕ) → from ≤ p → p < to → ((get_or places.new p nowhere).from ≡ from) × ((get_or places.new p nowhere).to ≡ to) }
    ensures kept { (p : ℕ) → p < from → slice_index_or places.new p nowhere ≡ slice_index_or places.old p nowhere }
{
    // By number: it is the number of a place that is listed.
    for p in from..to {
        let before = put(lasts, key_of(literals[p]), p as u16);
        let first = literal_at(literals, to, first_other(from, p));
        let second = literal_at(literals, to, second_other(from, p));
        places[p] = Occurrence {
            from: from as u16,
            to: to as u16,
            before,
            first,
            second,
        };
    }
}

// Every place of every clause.
pub fn list(row: Row, lasts: &mut [u16], places: &mut [Occurrence])
    requires space { length row.literals.now ≤ length places.old }
    ensures listed { Listed row.entry.literals.now row.entry.ends.now lasts.new places.new }
{
    // No literal stands anywhere yet.
    lasts.fill(0);
    let mut from = 0;
    for &to in row.ends {
        list_clause(row.literals, lasts, places, from, to);
        from = to;
    }
}
