// How a search reads a row: numbers of 16 bits, arrays of them, sets of states, the one function that hands out a target and counts, and the scan of a row.
// Every function is safe for any contents of the arrays.
#![tactic(auto)]

ghost use Rattle.std.specs.Prelude.{◌≡◌, ◌+◌, ◌-◌, ◌*◌, ◌%◌, ◌<◌, true, replicate, slice_index, slice_index_or, slice_set};
ghost use Rattle.rows.specs.Rows.{entries, place_of};
ghost use Rattle.look.specs.Numbers.{up as upped, further as oneFurther, plus as added};
ghost use Rattle.look.specs.Scan.{Spans, spanned, ends_of, Stretches, row_laid, Swept};

use rows::wide;

// The places of a row: those from one up to another.
#[derive(Clone, Copy)]
pub struct Row {
    pub from: usize,
    pub stop: usize,
}

// A row as a search reads it: its first place, how many edges it has, and what is added to each target.
#[derive(Clone, Copy)]
pub struct Stretch {
    pub from: usize,
    pub count: usize,
    pub base: usize,
}

// The rows as a search reads them. Of each state: where its row begins and ends among the targets, and what is added to each of them.
#[derive(Clone, Copy)]
pub struct Layout {
    pub begins: [u16; 513],
    pub ends: [u16; 512],
    pub bases: [u16; 512],
}

// A game, lent to a search: the targets of its moves, where each state's row lies among them, the words of its paying marks, and the number below which a state can be accepting.
#[derive(Clone, Copy)]
pub struct Game<'a> {
    pub targets: &'a [u16; 2048],
    pub layout: &'a Layout,
    pub words: &'a [u64; 8],
    pub size: u16,
}

// An edge that a scan has found: its index in the row, and its target.
#[derive(Clone, Copy)]
pub struct Edge {
    pub index: u16,
    pub target: u16,
}

// What stands in an array for "no number".
pub const NO_NUMBER: u16 = 65535;

// The entries of an array that goes by state, and of the array of targets.
pub const STATES: usize = 512;

const TARGETS: usize = 2048;

// A number below 65,536, in 16 bits.
fn narrow(x: usize) -> u16
    requires { x < 65536 }
    ensures { result ≡ x }
{
    x as u16
}

// A sum, modulo 65,536. (Of a session that a load made, no sum comes near: to test for the end would cost more than it is worth.)
#[tactic(auto, unfolding(crate::specs::Numbers::plus))]
pub fn plus(a: u16, b: u16) -> u16
    ensures { result ≡ added a b }
{
    a.wrapping_add(b)
}

// One more, modulo 65,536.
pub fn up(x: u16) -> u16
    ensures { result ≡ upped x }
{
    plus(x, 1)
}

// One more, at most 65,535.
#[tactic(auto, unfolding(crate::specs::Numbers::further))]
pub fn further(x: u16) -> u16
    ensures { result ≡ oneFurther x }
{
    x.saturating_add(1)
}

// A difference, at least 0.
pub fn minus(a: u16, b: u16) -> u16
    ensures { result ≡ a - b }
{
    a.saturating_sub(b)
}

// One less, at least 0.
pub fn down(x: u16) -> u16
    ensures { result ≡ x - 1 }
{
    minus(x, 1)
}

// A product of two numbers of 16 bits.
pub fn times(a: u16, b: u16) -> usize
    ensures { (result ≡ a * b) × (result < 4294967296) }
{
    wide(a) * wide(b)
}

// The same, modulo 65,536.
pub fn times_within(a: u16, b: u16) -> u16
    ensures { result ≡ a * b % 65536 }
{
    narrow(times(a, b) % 65536)
}

// Entry v; 0 past the end.
pub fn get(a: &[u16; 512], v: u16) -> u16
    ensures { result ≡ slice_index a.now v }
{
    let i = wide(v);
    if i < STATES { a[i] } else { 0 }
}

// x at entry v; past the end nothing.
pub fn put(a: &mut [u16; 512], v: u16, x: u16)
    ensures { a.new ≡ slice_set a.old v x }
{
    let i = wide(v);
    if i < STATES {
        a[i] = x;
    }
}

// The place of x among the first n entries, 0 standing past the end; n where it is not there.
pub fn find(a: &[u16; 512], n: u16, x: u16) -> u16
    ensures { result ≡ place_of x (entries n 0 a.now) }
{
    for i in 0..n {
        if get(a, i) == x {
            return i;
        }
    }
    n
}

// x at each entry.
pub fn fill(a: &mut [u16; 512], x: u16)
    ensures { a.new ≡ replicate 512 x }
{
    *a = [x; STATES];
}

// Is the state in the set? One of 512 or above counts as in every set.
pub fn contains(states: &[bool; 512], v: u16) -> bool
    ensures { result ≡ slice_index_or states.now v true }
{
    let i = wide(v);
    if i < STATES { states[i] } else { true }
}

// Puts the state into the set.
pub fn insert(states: &mut [bool; 512], v: u16)
    ensures { states.new ≡ slice_set states.old v true }
{
    let i = wide(v);
    if i < STATES {
        states[i] = true;
    }
}

// The one function that hands a target to the search: the entry at that place. The count that it is lent rises by one.
pub fn look(targets: &[u16; 2048], spent: &mut u16, at: usize) -> u16
    requires { at < 2048 }
    ensures { (result ≡ slice_index targets.now at) × (spent.new ≡ (spent.old + 1) % 65536) }
{
    *spent = up(*spent);
    targets[at]
}

// The places of the row of v. One that goes on past the array of targets, or that belongs to a state of 512 or more, counts as empty: no table
// has such a row. So no turn of a scan has to test where the array ends.
pub fn row_of(starts: &[u16; 513], v: u16) -> Row
    ensures { Spans starts.now v result }
{
    let i = wide(v);
    if i < STATES {
        let from = wide(starts[i]);
        let stop = wide(starts[i + 1]);
        if stop <= TARGETS {
            return Row { from, stop };
        }
    }
    Row { from: 0, stop: 0 }
}

// How many edges stand between two places of the targets. Where they go on past the array of targets it is none: no table has such a row. So no turn of a scan has to test
// where the array ends.
fn span(from: usize, stop: usize) -> usize
    ensures { result ≡ spanned from stop }
{
    if from < stop {
        if stop <= TARGETS {
            return stop - from;
        }
    }
    0
}

// Where each row ends: where the next one starts.
pub fn lay_ends(starts: &[u16; 513], ends: &mut [u16; 512])
    ensures { ends.new ≡ ends_of starts.now }
{
    for v in 0..STATES {
        ends[v] = starts[v + 1];
    }
}

// The row of v, as a search reads it. A state of 512 or more counts as the one that it leaves when divided by 512: no table has such a state.
pub fn stretch_of(layout: &Layout, v: u16) -> Stretch
    ensures { Stretches layout.now v result }
{
    let i = wide(v) % STATES;
    let from = wide(layout.begins[i]);
    let stop = wide(layout.ends[i]);
    Stretch {
        from,
        count: span(from, stop),
        base: wide(layout.bases[i]),
    }
}

// From edge k of v on, the first edge to a state that has no number in the array, if one is left: with `number` an undiscovered state, with `stamp` an unmarked one.
pub fn scan(
    targets: &[u16; 2048],
    layout: &Layout,
    array: &[u16; 512],
    spent: &mut u16,
    v: u16,
    k: usize,
) -> Option<Edge>
    ensures { Swept (row_laid targets.now layout.now v) array.now k spent.old result spent.new }
{
    let row = stretch_of(layout, v);
    for e in k..row.count {
        let t = (wide(look(targets, spent, row.from + e)) + row.base) % STATES;
        if array[t] == NO_NUMBER {
            return Some(Edge {
                index: narrow(e),
                target: narrow(t),
            });
        }
    }
    None
}
