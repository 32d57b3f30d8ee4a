// The game's table in its arrays: a load and changes are tried on it, and accepted ones are filed in its rows and its marks. No search.
#![tactic(auto)]

ghost use Rattle.std.specs.Prelude.{◌≡◌, ◌<◌};
ghost use Rattle.plain.specs.Lists.{any, any_below};
ghost use Rattle.plain.specs.Table.{by_kind};
ghost use Rattle.plain.specs.Refusals.{first_held, bad_marks, bad_kinds, outside, room_condition, pairs};
ghost use Rattle.table.specs.Trials.{op_of, tried, bad_mark, early_trial, there, carries_in, add_conditions, cut_conditions, mark_conditions, unmark_conditions, conditions_in, trial_in, kinds_trial_in};
ghost use Rattle.table.specs.Filing.{recounted, counted_all, filed_in, Attempted, Empty, Limits, FiledAll, Tried, AttemptedKinds};

use rows::{Rows, wide};

// Where a refusal stands: it is that of the call, or that of a line of a batch, with its position.
// Kept: no `Option<u16>`, which would be no plainer: that of a call stands somewhere too.
#[derive(Clone, Copy)]
pub enum Position {
    Alone,
    Line(u16),
}

// A refusal: its number in the documents' lists, and where it stands.
#[derive(Clone, Copy)]
pub struct Refusal {
    pub number: u16,
    pub position: Position,
}

// A change of the table: of its moves, or of its paying marks. Kinds of pay count from 1.
#[derive(Clone, Copy)]
pub enum Op {
    Add { from: u16, to: u16 },
    Cut { from: u16, to: u16 },
    Mark { state: u16, kind: u16 },
    Unmark { state: u16, kind: u16 },
}

// What a change switches on or off: an edge (move), or a state's paying mark.
#[derive(Clone, Copy)]
pub enum Subject {
    Edge { from: u16, to: u16 },
    Mark { state: u16, kind: u16 },
}

// A change as it is made: what is switched, and whether it comes or goes. Every test of it has two ways out (docs/DECISIONS.md, 68).
#[derive(Clone, Copy)]
pub struct Switch {
    pub on: bool,
    pub subject: Subject,
}

// The table's arrays: the moves as rows, the words of the paying marks, and for each state the count of moves that enter it.
#[derive(Clone, Copy)]
pub struct Arrays {
    pub rows: Rows,
    pub words: [u64; 8],
    pub indegree: [u16; 512],
}

// What trying a call comes to: the number of the first condition that holds.
#[derive(Clone, Copy)]
pub enum Trial {
    Accepted,
    Refused(u16),
}

// The most states and moves of a game, each times its kinds, the numbers of so many moves, and the most kinds.
const COPIES: usize = 512;

const MOVES: usize = 2048;

pub const NUMBERS: usize = 4096;

const KINDS: u16 = 4;

// The bits of a kind's eight words.
const BITS: usize = 512;

// Is a mark of a kind, which counts from 0, set for a number not below the count of states, or of a kind that is not in use?
fn kind_outside(marks: &[u64; 32], kind: usize, size: u16, kinds: u16) -> bool
    requires { kind < 4 }
    ensures { result ≡ any_below 512 (bad_mark size kinds (by_kind marks.now) kind) }
{
    for s in 0..BITS {
        if (wide(size) <= s || wide(kinds) <= kind) && marks::accepts_in(marks, BITS * kind + s) {
            return true;
        }
    }
    false
}

// Is such a mark set, of any kind?
fn marks_outside(marks: &[u64; 32], size: u16, kinds: u16) -> bool
    ensures { result ≡ bad_marks size kinds (by_kind marks.now) }
{
    for kind in 0..wide(KINDS) {
        if kind_outside(marks, kind, size, kinds) {
            return true;
        }
    }
    false
}

// Does a move name a number that is not below the count of states?
fn is_outside(size: u16, from: u16, to: u16) -> bool
    ensures { result ≡ outside size (from, to) }
{
    size <= from || size <= to
}

// Does a move of the list name such a number?
fn any_outside(numbers: &[u16], size: u16) -> bool
    ensures { result ≡ any (outside size) (pairs numbers.now) }
{
    for edge in numbers.chunks_exact(2) {
        if is_outside(size, edge[0], edge[1]) {
            return true;
        }
    }
    false
}

// Refusal 16: no kind or more than four, or so many that the copies of states or moves are too many.
fn kinds_outside(kinds: u16, size: u16, moves: usize) -> bool
    requires { moves < 65536 }
    ensures { result ≡ bad_kinds kinds size moves }
{
    kinds == 0 || KINDS < kinds || COPIES < look::times(size, kinds) || MOVES < moves * wide(kinds)
}

// Refusals 2 to 6 of a load, 16 among them.
fn early_trial(size: u16, start: u16, kinds: u16, marks: &[u64; 32], numbers: &[u16]) -> Trial
    ensures { result ≡ tried (early_trial size start kinds marks.now numbers.now) }
{
    if size == 0 || rows::STATES < size {
        return Trial::Refused(2);
    }
    if size <= start {
        return Trial::Refused(3);
    }
    if marks_outside(marks, size, kinds) {
        return Trial::Refused(4);
    }
    if numbers.len() % 2 == 1 || NUMBERS < numbers.len() {
        return Trial::Refused(5);
    }
    if kinds_outside(kinds, size, numbers.len() / 2) {
        return Trial::Refused(16);
    }
    if any_outside(numbers, size) {
        return Trial::Refused(6);
    }
    Trial::Accepted
}

// Is the move there?
fn is_there(rows: &Rows, from: u16, to: u16) -> bool
    ensures { result ≡ there rows.now.targets rows.now.starts from to }
{
    rows.place(from, to) < rows.degree(from)
}

// Files the moves of the list into empty rows, in their order, until one stands twice: was there one?
fn file_all(numbers: &[u16], size: u16, rows: &mut Rows) -> bool
    requires { Limits size numbers.now rows.old.targets rows.old.starts }
    ensures { FiledAll size numbers.now result rows.new.targets rows.new.starts }
{
    for edge in numbers.chunks_exact(2) {
        let from = edge[0];
        let to = edge[1];
        if is_there(rows, from, to) {
            return true;
        }
        rows.insert(size, from, to);
    }
    false
}

// Refusal 11: the list lent for the walk has fewer entries than the game has states, in all its layers.
pub fn room_trial(size: u16, kinds: u16, room: usize) -> Trial
    ensures { result ≡ tried (first_held (room_condition size kinds room)) }
{
    if room < look::times(size, kinds) {
        return Trial::Refused(11);
    }
    Trial::Accepted
}

// Tries a load, and files its moves into empty rows where it is accepted.
pub fn load_trial(
    size: u16,
    start: u16,
    kinds: u16,
    marks: &[u64; 32],
    numbers: &[u16],
    rows: &mut Rows,
    room: usize,
) -> Trial
    requires { Empty rows.old.targets rows.old.starts }
    ensures { Tried (record { size = size; start = start; kinds = kinds; marks = by_kind marks.now; numbers = numbers.now }) room result rows.new.targets rows.new.starts }
{
    let early = early_trial(size, start, kinds, marks, numbers);
    if let Trial::Refused(n) = early {
        return Trial::Refused(n);
    }
    if file_all(numbers, size, rows) {
        return Trial::Refused(8);
    }
    room_trial(size, kinds, room)
}

// Refusals 6, 8 and 9 of an add.
fn add_trial(size: u16, kinds: u16, rows: &Rows, from: u16, to: u16) -> Trial
    ensures { result ≡ tried (first_held (add_conditions size kinds rows.now.targets rows.now.starts from to)) }
{
    if is_outside(size, from, to) {
        return Trial::Refused(6);
    }
    if is_there(rows, from, to) {
        return Trial::Refused(8);
    }
    let present = rows.edge_count(size);
    if MOVES < look::times(present, kinds) + wide(kinds) {
        return Trial::Refused(9);
    }
    Trial::Accepted
}

// Refusals 6 and 10 of a cut.
fn cut_trial(size: u16, rows: &Rows, from: u16, to: u16) -> Trial
    ensures { result ≡ tried (first_held (cut_conditions size rows.now.targets rows.now.starts from to)) }
{
    if is_outside(size, from, to) {
        return Trial::Refused(6);
    }
    if !is_there(rows, from, to) {
        return Trial::Refused(10);
    }
    Trial::Accepted
}

// Does a state carry a kind? Its copy in the layer of that kind has the bit.
fn carries(size: u16, words: &[u64; 8], state: u16, kind: u16) -> bool
    ensures { result ≡ carries_in size words.now state kind }
{
    marks::accepts_in(words, layers::copy_of(size, look::down(kind), state))
}

// Refusals 4, 6 and 13 of a mark.
fn mark_trial(size: u16, kinds: u16, words: &[u64; 8], state: u16, kind: u16) -> Trial
    ensures { result ≡ tried (first_held (mark_conditions size kinds words.now state kind)) }
{
    if kinds < kind {
        return Trial::Refused(4);
    }
    if size <= state {
        return Trial::Refused(6);
    }
    if carries(size, words, state, kind) {
        return Trial::Refused(13);
    }
    Trial::Accepted
}

// Refusals 4, 6 and 14 of an unmark.
fn unmark_trial(size: u16, kinds: u16, words: &[u64; 8], state: u16, kind: u16) -> Trial
    ensures { result ≡ tried (first_held (unmark_conditions size kinds words.now state kind)) }
{
    if kinds < kind {
        return Trial::Refused(4);
    }
    if size <= state {
        return Trial::Refused(6);
    }
    if !carries(size, words, state, kind) {
        return Trial::Refused(14);
    }
    Trial::Accepted
}

// The refusals of a change itself.
fn own_trial(switch: Switch, size: u16, kinds: u16, arrays: &Arrays) -> Trial
    ensures { result ≡ tried (first_held (conditions_in (op_of switch) size kinds arrays.now.rows arrays.now.words)) }
{
    match switch.subject {
        Subject::Edge { from, to } => {
            if switch.on {
                add_trial(size, kinds, &arrays.rows, from, to)
            } else {
                cut_trial(size, &arrays.rows, from, to)
            }
        }
        Subject::Mark { state, kind } => {
            if switch.on {
                mark_trial(size, kinds, &arrays.words, state, kind)
            } else {
                unmark_trial(size, kinds, &arrays.words, state, kind)
            }
        }
    }
}

// Tries a change whose kind, if it has one, is 1 to 4: 11 comes behind its own refusals.
fn change_trial(switch: Switch, size: u16, kinds: u16, arrays: &Arrays, room: usize) -> Trial
    ensures { result ≡ tried (trial_in (op_of switch) size kinds arrays.now.rows arrays.now.words room) }
{
    let own = own_trial(switch, size, kinds, arrays);
    if let Trial::Refused(n) = own {
        return Trial::Refused(n);
    }
    room_trial(size, kinds, room)
}

// One edge more enters a state, or one fewer.
fn count_edge(indegree: &mut [u16; 512], to: u16, more: bool)
    ensures { indegree.new ≡ recounted more to indegree.old }
{
    let n = look::get(indegree, to);
    let changed = if more {
        look::further(n)
    } else {
        look::down(n)
    };
    look::put(indegree, to, changed);
}

// Counts the moves of the list, each at the state that it enters.
pub fn count_edges(numbers: &[u16], indegree: &mut [u16; 512])
    ensures { indegree.new ≡ counted_all (pairs numbers.now) indegree.old }
{
    for edge in numbers.chunks_exact(2) {
        count_edge(indegree, edge[1], true);
    }
}

// The change is made in the arrays.
fn file_one(switch: Switch, size: u16, arrays: &mut Arrays)
    ensures { arrays.new ≡ filed_in (op_of switch) size arrays.old }
{
    match switch.subject {
        Subject::Edge { from, to } => {
            count_edge(&mut arrays.indegree, to, switch.on);
            if switch.on {
                arrays.rows.insert(size, from, to);
            } else {
                let k = arrays.rows.place(from, to);
                arrays.rows.remove(size, from, k);
            }
        }
        Subject::Mark { state, kind } => {
            let copy = layers::copy_of(size, look::down(kind), state);
            if switch.on {
                marks::set_mark(&mut arrays.words, copy);
            } else {
                marks::clear_mark(&mut arrays.words, copy);
            }
        }
    }
}

// Tries a change, and makes it in the arrays where it is accepted.
pub fn attempt_change(
    switch: Switch,
    size: u16,
    kinds: u16,
    arrays: &mut Arrays,
    room: usize,
) -> Trial
    ensures { Attempted (op_of switch) size kinds room arrays.old result arrays.new }
{
    let trial = change_trial(switch, size, kinds, arrays, room);
    if let Trial::Refused(n) = trial {
        return Trial::Refused(n);
    }
    file_one(switch, size, arrays);
    Trial::Accepted
}

// Refusals 16 and 11 of another count of kinds, and ahead of them that there is a game.
fn kinds_trial(new: u16, size: u16, starts: &[u16; 513], room: usize) -> Trial
    ensures { result ≡ tried (kinds_trial_in new size starts.now room) }
{
    if size == 0 {
        return Trial::Refused(2);
    }
    if kinds_outside(new, size, wide(rows::edge_count(starts, size))) {
        return Trial::Refused(16);
    }
    room_trial(size, new, room)
}

// Tries another count of kinds, and drops the marks of kinds above it where it is accepted.
pub fn attempt_kinds(
    new: u16,
    size: u16,
    kinds: u16,
    starts: &[u16; 513],
    words: &mut [u64; 8],
    room: usize,
) -> Trial
    ensures { AttemptedKinds new size kinds room starts.now words.old result words.new }
{
    let trial = kinds_trial(new, size, starts, room);
    if let Trial::Refused(n) = trial {
        return Trial::Refused(n);
    }
    layers::keep_kinds(words, size, kinds, new);
    Trial::Accepted
}
