// Where a search is taken up for a call: read off the records of the search before, while the rows are those that it has read.
#![tactic(auto)]

ghost use Rattle.std.specs.Prelude.{◌≡◌, ◌≤◌, length, take};
ghost use Rattle.table.specs.Trials.{op_of};
ghost use Rattle.batch.specs.Batches.{switch_in, line_in, lines_in, states_in as named_in, numbers_in};
ghost use Rattle.resumption.specs.Model.{unexplored_edge, copy_passed_over, passed_over_in, all_passed_over, named_most, copies_up, copies_up_all, first_of, earliest_of, resumption_of};

use batch::BatchLine;
use rows::Rows;
use table::Subject;

// The most states that a batch names.
const NAMED: usize = 64;

// Had the search not come to an edge that comes or goes, in the layer of one copy of the state that it leaves? The states below the place of the tip have not finished their outer moves: an edge that comes stands
// behind those taken. The state behind each of them on the walk was discovered through the last one taken: an edge that goes has to stand further on.
fn is_unexplored(
    on: bool,
    copy: u16,
    from: u16,
    to: u16,
    rows: &Rows,
    index: &[u16; 512],
    walk: &[u16; 512],
    tip: u16,
) -> bool
    ensures { result ≡ unexplored_edge on copy from to rows.now index.now walk.now tip }
{
    let i = look::find(walk, tip, copy);
    if tip <= i {
        return false;
    }
    if on {
        return true;
    }
    let next = look::get(walk, i + 1);
    look::get(index, next) < rows.place(from, to)
}

// Had the search not come to what a line changes, in the layer of one copy: has it never met the copy, or not come to the edge there?
fn is_copy_passed_over(
    line: BatchLine,
    copy: u16,
    rows: &Rows,
    number: &[u16; 512],
    index: &[u16; 512],
    walk: &[u16; 512],
    height: u16,
) -> bool
    ensures { result ≡ copy_passed_over (op_of (switch_in line)) copy rows.now number.now index.now walk.now height }
{
    if look::get(number, copy) == look::NO_NUMBER {
        return true;
    }
    let switch = batch::switch_in(line);
    if let Subject::Edge { from, to } = switch.subject {
        let tip = look::down(height);
        return is_unexplored(switch.on, copy, from, to, rows, index, walk, tip);
    }
    false
}

// The same in every layer. A line that makes no change is passed over: its batch is refused.
fn is_passed_over(
    line: BatchLine,
    size: u16,
    kinds: u16,
    rows: &Rows,
    number: &[u16; 512],
    index: &[u16; 512],
    walk: &[u16; 512],
    height: u16,
) -> bool
    ensures { result ≡ passed_over_in (line_in line) size kinds rows.now number.now index.now walk.now height }
{
    if !batch::is_change(line) {
        return true;
    }
    let mut copy = batch::named_by(line);
    for layer in 0..kinds {
        if !is_copy_passed_over(line, copy, rows, number, index, walk, height) {
            return false;
        }
        copy = look::plus(copy, size);
    }
    true
}

// Are all lines of a call passed over? It is asked before they are tried, while the rows are those that the search has read.
fn all_passed_over(
    alone: Option<BatchLine>,
    lines: &[u16],
    size: u16,
    kinds: u16,
    rows: &Rows,
    number: &[u16; 512],
    index: &[u16; 512],
    walk: &[u16; 512],
    height: u16,
) -> bool
    ensures { result ≡ all_passed_over (lines_in (numbers_in alone lines.now)) size kinds rows.now number.now index.now walk.now height }
{
    let end = batch::lines_end(alone.is_some(), lines);
    // Kept: over `step_by` the loop needs a measure too, and the library has no lemma on the places that it comes to.
    let mut at: usize = 0;
    while at < end {
        let line = batch::line_at(alone, lines, at);
        if !is_passed_over(line, size, kinds, rows, number, index, walk, height) {
            return false;
        }
        at += batch::LINE;
    }
    true
}

// The states that the lines of a call name, as many as a batch may name, at the head of a list: how many they are.
fn name_states(alone: Option<BatchLine>, lines: &[u16], states: &mut [u16; NAMED]) -> usize
    requires { length states.old ≡ named_most }
    ensures { (result ≤ named_most) × (length states.new ≡ named_most) × (take result states.new ≡ take named_most (named_in (numbers_in alone lines.now))) }
{
    let end = batch::lines_end(alone.is_some(), lines);
    // Kept: over `step_by` the loop needs a measure too, and the library has no lemma on the places that it comes to.
    let mut at: usize = 0;
    let mut n: usize = 0;
    while at < end {
        if n == NAMED {
            return n;
        }
        let line = batch::line_at(alone, lines, at);
        states[n] = batch::named_by(line);
        n += 1;
        at += batch::LINE;
    }
    n
}

// The earliest of some copies and of those before them: its discovery number and the copy. Before any has been discovered the number is none.
#[derive(Clone, Copy)]
struct First {
    number: u16,
    copy: u16,
}

// The copies of a state, one in each layer, behind those before it.
fn earlier(first: First, state: u16, size: u16, kinds: u16, number: &[u16; 512]) -> First
    ensures { result ≡ first_of first (copies_up size kinds state) number.now }
{
    let mut least = first;
    let mut copy = state;
    for layer in 0..kinds {
        let n = look::get(number, copy);
        if n < least.number {
            least = First { number: n, copy };
        }
        copy = look::plus(copy, size);
    }
    least
}

// Where the search is taken up that first discovers a copy of one of some states: the earliest of them, or nowhere, since it discovered none.
fn earliest(states: &[u16], size: u16, kinds: u16, number: &[u16; 512]) -> Option<u16>
    ensures { result ≡ earliest_of (copies_up_all size kinds states.now) number.now }
{
    let mut first = First {
        number: look::NO_NUMBER,
        copy: 0,
    };
    for state in states {
        first = earlier(first, *state, size, kinds, number);
    }
    if first.number == look::NO_NUMBER {
        return None;
    }
    Some(first.copy)
}

// Where the search is taken up for a call: where the state was discovered that this gives, or nowhere, since it had not come to what the call alters.
// Kept: three arrays and no `Records`, here and in what it calls: of the other three nothing is read, and who asks need not hold them.
pub fn where_to_resume(
    alone: Option<BatchLine>,
    lines: &[u16],
    size: u16,
    kinds: u16,
    rows: &Rows,
    number: &[u16; 512],
    index: &[u16; 512],
    walk: &[u16; 512],
    height: u16,
) -> Option<u16>
    ensures { result ≡ resumption_of size kinds (numbers_in alone lines.now) rows.now number.now index.now walk.now height }
{
    if all_passed_over(alone, lines, size, kinds, rows, number, index, walk, height) {
        return None;
    }
    let mut states: [u16; NAMED] = [0; NAMED];
    let n = name_states(alone, lines, &mut states);
    earliest(&states[..n], size, kinds, number)
}
