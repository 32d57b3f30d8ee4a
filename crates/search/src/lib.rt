// Nested depth-first search over compressed rows; it can be resumed where a state was discovered.
// The arrays are lent, so that no step copies one. Every function is safe for any contents of the arrays.
#![tactic(auto)]

mod outer; // steps of the outer search
mod nested; // steps of the nested search
mod rewind; // the arrays as they stood when a state was discovered
mod run; // the search, begun or resumed, to its end

pub use rewind::begin;
pub use run::resume;

#[derive(Clone, Copy, PartialEq, Eq)]
pub enum Phase {
    Outer,
    Nested,
    Exhausted,
    Found,
}

// Where the search stands.
// Kept: that a nested search has states on its paths stands in clauses, since a struct with a fact of its own takes no update syntax: each walker would be written out.
#[derive(Clone, Copy)]
pub struct Walker {
    pub phase: Phase,
    // the state whose edges are being taken, and the index of its next edge
    pub cur: u16,
    pub next: usize,
    // how many states are on the open path
    pub height: u16,
    // how many entries of the walk are in use
    pub top: u16,
    // where a cycle is found, the place of the walk at which it is entered; 0 otherwise
    pub stem: u16,
    // how many states are discovered
    pub met: u16,
    // the probes kept from the search before
    pub kept: u16,
}

// What outlives a search.
#[derive(Clone, Copy)]
pub struct Records {
    // by state: its discovery number, the state from which it was discovered, by which edge of that state's row, and the probes made by then
    pub number: [u16; 512],
    pub parent: [u16; 512],
    pub index: [u16; 512],
    pub probes: [u16; 512],
    // by state: how many states were discovered when the nested search marked it
    pub stamp: [u16; 512],
    // the open path, and behind it the path of the nested search
    pub walk: [u16; 512],
}

// What a search notes beside these of its two paths.
#[derive(Clone, Copy)]
struct Trail {
    // by state: its place on the open path
    depth: [u16; 512],
    // by place of the walk: the edge that the nested search took last from the state there
    cursor: [u16; 512],
}

// The most states of a chain of parents: on a game's own arrays no state stands in it twice.
const LONGEST: u16 = 512;
