// What a search has come to, as the answer to a call and as a walk in the list lent for it.
#![tactic(auto)]

ghost use Rattle.std.specs.Prelude.{◌≡◌, ◌++◌, ◌+◌, ◌≤◌, length, take, drop};
ghost use Rattle.verdict.specs.Answers.{answer_is, refusing, is_refused, shown_walk, lowered, Tells};

use rows::wide;
use table::{Position, Refusal};

// The answer to a call: a refusal, or the probes spent and kept, and with a round the lengths of stem and round.
// Kept: one enum of three cases, which are the lines that tell an answer: a Result would split them between two types.
#[derive(Clone, Copy)]
pub enum Answer {
    Refused(Refusal),
    Clear {
        spent: u16,
        kept: u16,
    },
    Round {
        spent: u16,
        kept: u16,
        stem: u16,
        cycle: u16,
    },
}

// The answer that tells what a search has come to: no walk has the length 0.
// Kept: a length and no Option of a walk: the searches hand on the lengths as they hold them, and the contract is an equation on them.
#[tactic(auto, unfolding(crate::specs::Answers::answer_is))]
fn answer_of(spent: u16, kept: u16, stem: u16, length: u16) -> Answer
    ensures { result ≡ answer_is spent kept stem length }
{
    if length == 0 {
        return Answer::Clear { spent, kept };
    }
    Answer::Round {
        spent,
        kept,
        stem,
        cycle: length.saturating_sub(stem),
    }
}

// Entries of the walk, from a place on, at the head of the list.
fn write_part(walk: &[u16; 512], from: u16, count: u16, out: &mut [u16])
    ensures { (from + count ≤ 512 → count ≤ length out.old → out.new ≡ take count (drop from walk.now) ++ drop count out.old) × (length out.new ≡ length out.old) }
{
    let from = wide(from).min(walk.len());
    let part = &walk[from..];
    let count = wide(count).min(part.len()).min(out.len());
    // Kept: the C interface. With `copy_from_slice` the archive asks for `memmove` from outside.
    for i in 0..count {
        out[i] = part[i];
    }
}

// Writes the walk: the stem, and the cycle into the part of the list behind the stem.
#[tactic(auto, using(crate::proofs::Writing::written_both))]
fn write_walk(walk: &[u16; 512], stem: u16, len: u16, lent: &mut [u16])
    ensures { stem ≤ len → len ≤ 512 → len ≤ length lent.old → lent.new ≡ shown_walk len walk.now lent.old }
{
    if stem <= len && wide(len) <= lent.len() {
        write_part(walk, 0, stem, lent);
        let at = wide(stem);
        write_part(walk, stem, len - stem, &mut lent[at..]);
    }
}

// The first entries of the list, as the states of which they are copies. A pass of its own, so that the walk of a game of one kind is copied many entries at a time.
fn lower(size: u16, above: u16, count: usize, list: &mut [u16])
    requires { count ≤ length list.old }
    ensures { list.new ≡ shown_walk count (lowered size above list.old) list.old }
{
    for state in list[..count].iter_mut() {
        *state = layers::state_of(size, above, *state);
    }
}

// Writes the walk in plain states. `above` is how many layers lie above the first: of a game of one kind the walk's states are plain.
#[tactic(auto, using(crate::proofs::Writing::lowered_one, crate::proofs::Writing::lowered_written))]
fn show_walk(walk: &[u16; 512], stem: u16, len: u16, size: u16, above: u16, lent: &mut [u16])
    ensures { stem ≤ len → len ≤ 512 → len ≤ length lent.old → lent.new ≡ shown_walk len (lowered size above walk.now) lent.old }
{
    write_walk(walk, stem, len, lent);
    let count = wide(len);
    if 0 < above && count <= lent.len() {
        lower(size, above, count, lent);
    }
}

// Answers what a search has come to, and writes its walk into the lent list, in plain states.
// Kept: eight parameters: each search holds its numbers in a struct of its own, and one more would only be filled and taken apart at each call.
pub fn tell(
    spent: u16,
    kept: u16,
    stem: u16,
    len: u16,
    size: u16,
    above: u16,
    walk: &[u16; 512],
    lent: &mut [u16],
) -> Answer
    ensures { Tells spent kept stem len (lowered size above walk.now) lent.old result lent.new }
{
    show_walk(walk, stem, len, size, above, lent);
    answer_of(spent, kept, stem, len)
}

// The answer to a refused call.
pub fn refused(number: u16, position: Position) -> Answer
    ensures { result ≡ refusing number position }
{
    Answer::Refused(Refusal { number, position })
}

// Is the answer a refusal?
pub fn is_refused(answer: Answer) -> bool
    ensures { result ≡ is_refused answer }
{
    matches!(answer, Answer::Refused(_))
}
