// Every state on a round: strongly connected components, in one depth-first pass over the rows. The open states, those of components that are not complete, stand in the order of their discovery; they are
// held in groups, of which each is strongly connected. An edge to an open state of an older group joins the groups from there on, and a group of which no state is left on the
// path is a component. (Path-based, after Purdom, Munro and Gabow.) Every function is safe, and ends, for any contents of the arrays.
#![tactic(auto)]

ghost use Rattle.std.specs.Prelude.{◌≡◌, ◌+◌, ◌-◌, ◌<◌, get_or, drop};
ghost use Rattle.plain.specs.Lists.{any, elem};
ghost use Rattle.plain.specs.Table.{accepts};
ghost use Rattle.plain.specs.Rounds.{on_rounds};
ghost use Rattle.rows.specs.Rows.{entries};
ghost use Rattle.components.specs.Model.{row_of, game_in, found_of, joined, scanned, carries_all, is_cyclic, is_round, renumbered, discovered, departed, advanced, states_found};

use look::Edge;
use rows::{Rows, wide};

// How many groups there are, how many states are on the stack, and how many are on the path.
#[derive(Clone, Copy)]
struct Cursor {
    groups: u16,
    top: u16,
    height: u16,
}

// What the search writes on.
#[derive(Clone, Copy)]
struct Board {
    // by state: its place among the open states, or what stands in place of it
    number: [u16; 512],
    // the open states, in the order of their discovery
    stack: [u16; 512],
    // by group: the place of its first state among them
    firsts: [u16; 512],
    // the path, and by place on it the index of the next edge
    path: [u16; 512],
    next: [u16; 512],
}

// Where the search stands.
#[derive(Clone, Copy)]
struct Stand {
    board: Board,
    cursor: Cursor,
}

// Where going through the edges of a state ends: how many groups are left, and the edge that leads to a state not discovered, if there is one.
#[derive(Clone, Copy)]
struct Scanned {
    groups: u16,
    found: Option<Edge>,
}

// The states on a round, as marks in eight words, and how many they are.
#[derive(Clone, Copy)]
pub struct Found {
    pub count: u16,
    pub states: [u64; 8],
}

// What stands in place of a number for a state of a complete component: it lies on no round through all kinds, or on one.
const CLOSED: u16 = 65533;

const ON_ROUND: u16 = 65534;

// How many groups are left where those from the one that has place x on become one: the newest joins the one below while it begins behind x.
// Kept: a count that falls in a `while`: with a `for` over the groups, 0 and 1 would have to be told apart behind it.
fn join(firsts: &[u16; 512], groups: u16, x: u16) -> u16
    ensures { result ≡ joined firsts.now x groups }
{
    let mut n = groups;
    while 1 < n {
        if look::get(firsts, n - 1) <= x {
            return n;
        }
        n -= 1;
    }
    n
}

// Goes through the edges of v from edge k on, up to one that leads to a state not discovered. Each edge to an open state joins groups; a number of a closed state is above every place.
fn scan(rows: &Rows, board: &Board, groups: u16, v: u16, k: u16) -> Scanned
    ensures { result ≡ scanned board.now.number board.now.firsts (drop k (row_of rows.now.targets rows.now.starts v)) k groups }
{
    let row = look::row_of(&rows.starts, v);
    let mut unused: u16 = 0;
    let mut n = groups;
    for at in row.from + wide(k)..row.stop {
        let t = look::look(&rows.targets, &mut unused, at) % 512;
        let x = board.number[wide(t)];
        if x == look::NO_NUMBER {
            let edge = Edge {
                index: (at - row.from) as u16,
                target: t,
            };
            return Scanned {
                groups: n,
                found: Some(edge),
            };
        }
        n = join(&board.firsts, n, x);
    }
    Scanned {
        groups: n,
        found: None,
    }
}

// Does one of the open states from a place up to another carry a kind? `base` is the place of state 0 among the marks of that kind.
// Kept: two places and no slice, here and below: of arrays that no search leaves, they may lie past the end.
fn carried(words: &[u64; 8], base: usize, stack: &[u16; 512], from: u16, stop: u16) -> bool
    requires { base < 4294967296 }
    ensures { result ≡ any (λ s. accepts words.now (base + s)) (entries (stop - from) from stack.now) }
{
    (from..stop).any(|i| marks::accepts_in(words, base + wide(look::get(stack, i))))
}

// Is each kind in use carried by one of these states?
fn carries_all(
    words: &[u64; 8],
    size: u16,
    kinds: u16,
    stack: &[u16; 512],
    from: u16,
    stop: u16,
) -> bool
    ensures { result ≡ carries_all words.now size (entries (stop - from) from stack.now) kinds }
{
    (0..kinds).all(|kind| carried(words, look::times(kind, size), stack, from, stop))
}

// Has the state an edge to itself?
// Kept: a `for`: a closure would change the count that a look is lent, and of such a closure the library's lemmas say nothing.
fn has_loop(rows: &Rows, v: u16) -> bool
    ensures { result ≡ elem v (row_of rows.now.targets rows.now.starts v) }
{
    let row = look::row_of(&rows.starts, v);
    let mut unused: u16 = 0;
    for e in row.from..row.stop {
        if look::look(&rows.targets, &mut unused, e) % 512 == v {
            return true;
        }
    }
    false
}

// Does a closed run pass the open states from a place up to another, which are strongly connected: are they more than one, or has the one an edge to itself?
#[tactic(auto, unfolding(crate::specs::Model::is_cyclic))]
fn is_cyclic(rows: &Rows, stack: &[u16; 512], from: u16, stop: u16) -> bool
    ensures { result ≡ is_cyclic (row_of rows.now.targets rows.now.starts) (stop - from) (get_or stack.now from 0) }
{
    1 < look::minus(stop, from) || has_loop(rows, look::get(stack, from))
}

// Does a closed run pass them that passes every kind in use?
// Kept: the rows, the marks and their two counts as parameters, here and below: `find` is handed them so, and a struct that lends them would only be filled there.
#[tactic(auto, unfolding(crate::specs::Model::is_round))]
fn is_round(
    rows: &Rows,
    words: &[u64; 8],
    size: u16,
    kinds: u16,
    stack: &[u16; 512],
    from: u16,
    stop: u16,
) -> bool
    ensures { result ≡ is_round rows.now.targets rows.now.starts words.now size kinds stack.now from stop }
{
    is_cyclic(rows, stack, from, stop) && carries_all(words, size, kinds, stack, from, stop)
}

// The open states from a place up to another get a number.
fn renumber(number: &mut [u16; 512], stack: &[u16; 512], from: u16, stop: u16, x: u16)
    ensures { number.new ≡ renumbered x (entries (stop - from) from stack.now) number.old }
{
    for i in from..stop {
        look::put(number, look::get(stack, i), x);
    }
}

impl Stand {
    // A state is discovered: it is a group of its own, and the last of the path.
    #[tactic(auto, unfolding(crate::specs::Model::discovered))]
    fn discover(&mut self, t: u16)
        ensures { self.new ≡ discovered self.old.board self.old.cursor t }
    {
        let c = self.cursor;
        look::put(&mut self.board.number, t, c.top);
        look::put(&mut self.board.stack, c.top, t);
        look::put(&mut self.board.firsts, c.groups, c.top);
        look::put(&mut self.board.path, c.height, t);
        look::put(&mut self.board.next, c.height, 0);
        self.cursor = Cursor {
            groups: look::up(c.groups),
            top: look::up(c.top),
            height: look::up(c.height),
        };
    }

    // The path leaves its last state. Where the newest group then has none left on it, that group is a component, and is closed.
    #[tactic(auto, unfolding(crate::specs::Model::departed, crate::specs::Model::is_left))]
    fn leave(&mut self, rows: &Rows, words: &[u64; 8], size: u16, kinds: u16)
        ensures { self.new ≡ departed rows.now.targets rows.now.starts words.now size kinds self.old.board self.old.cursor }
    {
        let c = self.cursor;
        let height = look::down(c.height);
        let groups = look::down(c.groups);
        let first = look::get(&self.board.firsts, groups);
        if 0 < height {
            let last = look::get(&self.board.path, height - 1);
            if first <= look::get(&self.board.number, last) {
                self.cursor.height = height;
                return;
            }
        }
        let round = is_round(rows, words, size, kinds, &self.board.stack, first, c.top);
        let mark = if round { ON_ROUND } else { CLOSED };
        renumber(
            &mut self.board.number,
            &self.board.stack,
            first,
            c.top,
            mark,
        );
        self.cursor = Cursor {
            groups,
            top: first,
            height,
        };
    }

    // Goes through the edges of the path's last state up to one that leads to a state not discovered, which is then discovered; or the path leaves it.
    #[tactic(auto, unfolding(crate::specs::Model::advanced, crate::specs::Model::onwards))]
    fn advance(&mut self, rows: &Rows, words: &[u64; 8], size: u16, kinds: u16)
        ensures { self.new ≡ advanced rows.now.targets rows.now.starts words.now size kinds self.old.board self.old.cursor }
    {
        let at = look::down(self.cursor.height);
        let v = look::get(&self.board.path, at);
        let k = look::get(&self.board.next, at);
        let r = scan(rows, &self.board, self.cursor.groups, v, k);
        self.cursor.groups = r.groups;
        match r.found {
            Some(edge) => {
                look::put(&mut self.board.next, at, look::up(edge.index));
                self.discover(edge.target);
            }
            None => self.leave(rows, words, size, kinds),
        }
    }
}

// The states that have the number of those on a round.
fn list(number: &[u16; 512]) -> Found
    ensures { result ≡ found_of (states_found number.now) }
{
    let mut states: [u64; 8] = [0; 8];
    let mut count: u16 = 0;
    for s in 0..look::STATES {
        if number[s] == ON_ROUND {
            marks::set_mark(&mut states, s);
            count += 1;
        }
    }
    Found { count, states }
}

// Every state that can be reached from the start state and lies on a closed run through every kind in use.
pub fn find(rows: &Rows, words: &[u64; 8], size: u16, kinds: u16, start: u16) -> Found
    ensures { result ≡ found_of (on_rounds (game_in rows.now.targets rows.now.starts words.now size kinds start)) }
{
    let mut stand = Stand {
        board: Board {
            number: [look::NO_NUMBER; 512],
            stack: [0; 512],
            firsts: [0; 512],
            path: [0; 512],
            next: [0; 512],
        },
        cursor: Cursor {
            groups: 0,
            top: 0,
            height: 0,
        },
    };
    stand.discover(start % 512);
    while 0 < stand.cursor.height {
        stand.advance(rows, words, size, kinds);
    }
    list(&stand.board.number)
}
