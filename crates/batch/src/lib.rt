// The lines of a call, a change alone or a batch, tried one after the other on the game's table: all are made or none.
#![tactic(auto)]

ghost use Rattle.std.specs.Prelude.{◌≡◌, true, ◌<◌, is_some, length, drop};
ghost use Rattle.table.specs.Trials.{tried};
ghost use Rattle.batch.specs.Batches.{line_for, line_to, is_change, is_valid, subject_in, switch_in, line_in, numbers_in, end_in, head_line, lines_in, is_refused, position_at, tried_in, ahead_trial, call_tried_in, AttemptedLine, AttemptedLines, AttemptedCall};

use table::{Arrays, Op, Position, Subject, Switch, Trial};

// Changes of the game: one change, or a batch, whose lines a lent list holds.
// Kept: no `Option<Op>`, which would be no plainer: a batch is no absence of a change.
#[derive(Clone, Copy)]
pub enum Update {
    Change(Op),
    Batch,
}

// What a call on a session asks for: changes, or another count of kinds.
#[derive(Clone, Copy)]
pub enum Command {
    Update(Update),
    Kinds(u16),
}

// A line of a batch: what it does, and two numbers. 1 adds a move, 2 cuts one, 3 marks a state, 4 unmarks one; of a move the numbers are its states, of a mark the state and the kind.
// With any other number it makes no change.
// Kept: what it does is a number, and not an enum: a lent list holds a line as three numbers, and any of them may stand there.
#[derive(Clone, Copy)]
pub struct BatchLine {
    pub what: u16,
    pub first: u16,
    pub second: u16,
}

// What trying a call comes to, and where it ends: at the call itself, or at a line of a batch.
#[derive(Clone, Copy)]
pub struct Attempt {
    pub trial: Trial,
    pub position: Position,
}

// A list of lines has so many numbers for each.
pub const LINE: usize = 3;

// The most changes of a batch.
const CHANGES: u16 = 64;

// The most kinds of pay.
const KINDS: u16 = 4;

fn line(what: u16, first: u16, second: u16) -> BatchLine
    ensures { result ≡ line_for what first second }
{
    BatchLine {
        what,
        first,
        second,
    }
}

// The line of a batch that makes a change.
pub fn line_of(op: Op) -> BatchLine
    ensures { result ≡ line_to op }
{
    match op {
        Op::Add { from, to } => line(1, from, to),
        Op::Cut { from, to } => line(2, from, to),
        Op::Mark { state, kind } => line(3, state, kind),
        Op::Unmark { state, kind } => line(4, state, kind),
    }
}

// Does a line make a change?
pub fn is_change(line: BatchLine) -> bool
    ensures { result ≡ is_change line }
{
    matches!(line.what, 1..=4)
}

// What a line switches that makes a change.
fn subject_in(line: BatchLine) -> Subject
    ensures { result ≡ subject_in line }
{
    if line.what <= 2 {
        Subject::Edge {
            from: line.first,
            to: line.second,
        }
    } else {
        Subject::Mark {
            state: line.first,
            kind: line.second,
        }
    }
}

// Does a line make a change whose kind, if it names one, is one of the four?
fn is_valid(line: BatchLine) -> bool
    ensures { result ≡ is_valid line }
{
    is_change(line) && (line.what <= 2 || matches!(line.second, 1..=KINDS))
}

// The change that a line makes, as what it switches and which way.
pub fn switch_in(line: BatchLine) -> Switch
    ensures { result ≡ switch_in line }
{
    Switch {
        on: line.what % 2 == 1,
        subject: subject_in(line),
    }
}

// The state that a line's change names: the one that its move leaves, or the one marked or unmarked.
pub fn named_by(line: BatchLine) -> u16
    ensures { result ≡ line.first }
{
    line.first
}

// The line at a place in the list of a call. Of a change alone its only line is given; where none is given, the lines are those of a batch, in the lent list.
pub fn line_at(alone: Option<BatchLine>, lines: &[u16], at: usize) -> BatchLine
    requires { (at < length (numbers_in alone lines.now)) × (is_some alone ≡ true → at ≡ 0) }
    ensures { result ≡ head_line (drop at (numbers_in alone lines.now)) }
{
    if let Some(only) = alone {
        return only;
    }
    if lines.len() - at < LINE {
        return line(0, 0, 0);
    }
    line(lines[at], lines[at + 1], lines[at + 2])
}

// Where the list of a call ends.
pub fn lines_end(alone: bool, lines: &[u16]) -> usize
    ensures { result ≡ end_in alone lines.now }
{
    if alone { LINE } else { lines.len() }
}

// Tries the line at a position, and makes its change in the arrays where it is accepted.
fn attempt_line(
    line: BatchLine,
    position: u16,
    size: u16,
    kinds: u16,
    arrays: &mut Arrays,
    room: usize,
) -> Trial
    ensures { AttemptedLine (line_in line) position size kinds room arrays.old result arrays.new }
{
    if !is_valid(line) {
        return Trial::Refused(1);
    }
    if CHANGES < position {
        return Trial::Refused(15);
    }
    table::attempt_change(switch_in(line), size, kinds, arrays, room)
}

fn is_refused(trial: Trial) -> bool
    ensures { result ≡ is_refused trial }
{
    matches!(trial, Trial::Refused(_))
}

// An attempt that ends with the line at a position, where it is one of a batch.
fn ended(alone: Option<BatchLine>, trial: Trial, position: u16) -> Attempt
    ensures { result ≡ record { trial = trial; position = position_at (is_some alone) position } }
{
    Attempt {
        trial,
        position: if alone.is_some() {
            Position::Alone
        } else {
            Position::Line(position)
        },
    }
}

// Tries the lines of a call one after the other, each on the table as those before it leave it, up to the first that is refused.
fn attempt_lines(
    alone: Option<BatchLine>,
    lines: &[u16],
    size: u16,
    kinds: u16,
    arrays: &mut Arrays,
    room: usize,
) -> Attempt
    ensures { AttemptedLines (is_some alone) (tried_in 1 (lines_in (numbers_in alone lines.now)) size kinds arrays.old room) result arrays.new }
{
    let end = lines_end(alone.is_some(), lines);
    let mut at: usize = 0;
    let mut position: u16 = 1;
    // Kept: the place goes by three and the position by one, and `step_by` zipped with a count is no plainer.
    while at < end {
        let line = line_at(alone, lines, at);
        let trial = attempt_line(line, position, size, kinds, arrays, room);
        if is_refused(trial) {
            return ended(alone, trial, position);
        }
        at += LINE;
        position += 1;
    }
    ended(alone, Trial::Accepted, position)
}

// What is tried ahead of a batch: that there is a game, and 11.
fn ahead_trial(alone: Option<BatchLine>, size: u16, kinds: u16, room: usize) -> Trial
    ensures { result ≡ tried (ahead_trial (is_some alone) size kinds room) }
{
    if alone.is_some() {
        return Trial::Accepted;
    }
    if size == 0 {
        return Trial::Refused(2);
    }
    table::room_trial(size, kinds, room)
}

// Tries a call, and makes its changes in the arrays where all are accepted. Where a line of a batch is refused, the arrays are put back as they were. The old ones
// are held here, and by a batch alone: so the compiler has no copy of them to make for a change (docs/DECISIONS.md, 83).
pub fn attempt_call(
    alone: Option<BatchLine>,
    lines: &[u16],
    size: u16,
    kinds: u16,
    arrays: &mut Arrays,
    room: usize,
) -> Attempt
    ensures { AttemptedCall (is_some alone) (call_tried_in (is_some alone) (lines_in (numbers_in alone lines.now)) size kinds arrays.old room) arrays.old result arrays.new }
{
    let ahead = ahead_trial(alone, size, kinds, room);
    if is_refused(ahead) {
        return ended(alone, ahead, 0);
    }
    if alone.is_some() {
        return attempt_lines(alone, lines, size, kinds, arrays, room);
    }
    let old = *arrays;
    let r = attempt_lines(alone, lines, size, kinds, arrays, room);
    if is_refused(r.trial) {
        *arrays = old;
    }
    r
}
