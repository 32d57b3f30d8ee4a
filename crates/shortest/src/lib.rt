// The shortest round within a budget of looks: breadth-first searches for the lengths 1, 2 and so on. Every function is safe, and ends, for any contents of the arrays.
#![tactic(auto)]

ghost use Rattle.std.specs.Prelude.{◌≡◌};
ghost use Rattle.plain.specs.Table.{Table};
ghost use Rattle.shortest.specs.Model.{goes_on, root_in, Notes, LooksThrough, LooksLevel, Searches, TriesLength, lengths_at, TriesLengths, FilesRoot, FindsRoots, Shortens};

use rows::{Rows, wide};

// What looks at some edges have come to: all were looked at, one came back, or the budget does not allow the next.
#[derive(Clone, Copy)]
enum Sweep {
    Through,
    Back,
    Stopped,
}

// The same, and where the queue of the states seen then ends.
#[derive(Clone, Copy)]
struct Swept {
    sweep: Sweep,
    tail: u16,
}

// What a search writes on: the queue, the set of the states seen, and the count of looks.
#[derive(Clone, Copy)]
struct Board {
    queue: [u16; 512],
    seen: [bool; 512],
    spent: u16,
}

// The two lengths: of the best round known, and the smallest that is not ruled out.
#[derive(Clone, Copy)]
pub struct Lengths {
    pub best: u16,
    pub least: u16,
}

// What is no state, so that no look comes back to it.
const NO_STATE: u16 = 512;

// So many looks allow a search to look at every edge.
const ALL_LOOKS: u16 = 65535;

// Were all looked at?
fn goes_on(s: Sweep) -> bool
    ensures { result ≡ goes_on s }
{
    matches!(s, Sweep::Through)
}

// Notes a state: one that was not seen comes to the end of the queue. It returns where the queue then ends.
fn note(board: &mut Board, tail: u16, t: u16) -> u16
    ensures noted { Notes board.old.queue board.old.seen tail t board.new.queue board.new.seen result }
    ensures spent_kept { board.new.spent ≡ board.old.spent }
{
    if look::contains(&board.seen, t) {
        return tail;
    }
    look::insert(&mut board.seen, t);
    look::put(&mut board.queue, tail, t);
    look::further(tail)
}

// Looks at the edges of v, oldest first, until one leads to the goal or the budget is used up. Their targets are noted.
fn look_through(rows: &Rows, board: &mut Board, budget: u16, goal: u16, v: u16, begin: u16) -> Swept
    ensures { LooksThrough rows.now.targets rows.now.starts budget goal v board.old begin board.new result }
{
    let row = look::row_of(&rows.starts, v);
    let mut tail = begin;
    for e in row.from..row.stop {
        if budget <= board.spent {
            return Swept {
                sweep: Sweep::Stopped,
                tail,
            };
        }
        let t = look::look(&rows.targets, &mut board.spent, e);
        if t == goal {
            return Swept {
                sweep: Sweep::Back,
                tail,
            };
        }
        tail = note(board, tail, t);
    }
    Swept {
        sweep: Sweep::Through,
        tail,
    }
}

// Looks at the edges of the states of a level, which stand in the queue from a place up to its end.
fn look_level(rows: &Rows, board: &mut Board, budget: u16, goal: u16, from: u16, stop: u16) -> Swept
    ensures { LooksLevel rows.now.targets rows.now.starts budget goal from board.old stop board.new result }
{
    let mut tail = stop;
    for i in from..stop {
        let v = look::get(&board.queue, i);
        let r = look_through(rows, board, budget, goal, v, tail);
        if !goes_on(r.sweep) {
            return r;
        }
        tail = r.tail;
    }
    Swept {
        sweep: Sweep::Through,
        tail,
    }
}

// Searches from a state, breadth first, over so many levels, until a look leads to the goal. The states seen before are forgotten.
fn search(rows: &Rows, board: &mut Board, budget: u16, goal: u16, state: u16, levels: u16) -> Swept
    ensures { Searches rows.now.targets rows.now.starts budget goal state levels board.old.spent board.new result }
{
    board.seen = [false; 512];
    let mut from: u16 = 0;
    let mut tail = note(board, 0, state);
    for depth in 0..levels {
        if from == tail {
            return Swept {
                sweep: Sweep::Through,
                tail,
            };
        }
        let r = look_level(rows, board, budget, goal, from, tail);
        if !goes_on(r.sweep) {
            return r;
        }
        from = tail;
        tail = r.tail;
    }
    Swept {
        sweep: Sweep::Through,
        tail,
    }
}

// Tries a length: a search from each root, each anew, while the looks are counted on.
fn try_length(
    rows: &Rows,
    board: &mut Board,
    roots: &[u16; 512],
    count: u16,
    budget: u16,
    len: u16,
) -> Sweep
    ensures { TriesLength rows.now.targets rows.now.starts roots.now count budget len board.old.spent board.new.queue board.new.spent result }
{
    for i in 0..count {
        let s = look::get(roots, i);
        let r = search(rows, board, budget, s, s, len);
        if !goes_on(r.sweep) {
            return r.sweep;
        }
    }
    Sweep::Through
}

// The two lengths where the searches end at a length: by a round of it, or without one.
fn lengths_at(r: Sweep, length: u16, present: u16) -> Lengths
    ensures { result ≡ lengths_at r length present }
{
    match r {
        Sweep::Back => Lengths {
            best: length,
            least: length,
        },
        Sweep::Through | Sweep::Stopped => Lengths {
            best: present,
            least: length,
        },
    }
}

// Tries the lengths 1, 2 and so on, none longer than the present round's.
fn try_lengths(
    rows: &Rows,
    board: &mut Board,
    roots: &[u16; 512],
    count: u16,
    budget: u16,
    present: u16,
) -> Lengths
    ensures { TriesLengths rows.now.targets rows.now.starts roots.now count budget present result }
{
    board.spent = 0;
    for ruled_out in 0..present {
        let length = ruled_out + 1;
        let r = try_length(rows, board, roots, count, budget, length);
        if !goes_on(r) {
            return lengths_at(r, length, present);
        }
    }
    // No table comes to this: the present round is one of its length.
    Lengths {
        best: present,
        least: look::further(present),
    }
}

// Is the state accepting, and was it seen?
fn is_root(words: &[u64; 8], seen: &[bool; 512], s: u16) -> bool
    ensures { result ≡ root_in words.now seen.now s }
{
    if marks::accepts_in(words, wide(s)) {
        return look::contains(seen, s);
    }
    false
}

// A state that is a root comes behind those before it. It returns how many there then are.
fn file_root(
    words: &[u64; 8],
    seen: &[bool; 512],
    roots: &mut [u16; 512],
    count: u16,
    s: u16,
) -> u16
    ensures { FilesRoot (root_in words.now seen.now s) roots.old count s roots.new result }
{
    if !is_root(words, seen, s) {
        return count;
    }
    look::put(roots, count, s);
    look::further(count)
}

// The accepting states that can be reached, in rising order, and how many they are. The looks by which they are found are counted for no one.
fn find_roots(
    rows: &Rows,
    words: &[u64; 8],
    size: u16,
    start: u16,
    board: &mut Board,
    roots: &mut [u16; 512],
) -> u16
    ensures { FindsRoots rows.now.targets rows.now.starts words.now size start board.new.queue roots.new result }
{
    board.spent = 0;
    search(rows, board, ALL_LOOKS, NO_STATE, start, size);
    let mut count: u16 = 0;
    for s in 0..size {
        count = file_root(words, &board.seen, roots, count, s);
    }
    count
}

// What is known of the shortest round within a budget of looks, where the present round has so many moves.
pub fn shorten(
    rows: &Rows,
    words: &[u64; 8],
    size: u16,
    start: u16,
    present: u16,
    budget: u16,
) -> Lengths
    ensures { (t : Table) → Shortens t rows.now.targets rows.now.starts words.now size start present budget result }
{
    let mut board = Board {
        queue: [0; 512],
        seen: [false; 512],
        spent: 0,
    };
    let mut roots: [u16; 512] = [0; 512];
    let count = find_roots(rows, words, size, start, &mut board, &mut roots);
    try_lengths(rows, &mut board, &roots, count, budget, present)
}
