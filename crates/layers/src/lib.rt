// The layers of a game with several kinds of pay: the copies of its states, where their marks stand and where their rows lie. The rows are stored once.
// `above` is how many layers lie above the first.
#![tactic(auto)]

ghost use Rattle.std.specs.Prelude.{◌≡◌, ℕ, suc, ◌+◌, ◌*◌, ◌%◌, ◌≤◌, ◌<◌, min};
ghost use Rattle.plain.specs.Table.{accepts, by_kind};
ghost use Rattle.plain.specs.Layers.{copy, state_of, landing};
ghost use Rattle.layers.specs.Layout.{layered};
ghost use Rattle.layers.specs.Packed.{Packed, ClearedFrom};

use look::{Layout, STATES, times};
use rows::wide;

// The copy of a state in a layer, which counts from 0.
pub fn copy_of(size: u16, layer: u16, state: u16) -> usize
    ensures { result ≡ copy size layer state }
{
    times(layer, size) + wide(state)
}

// The state of which v is a copy.
pub fn state_of(size: u16, above: u16, v: u16) -> u16
    ensures { result ≡ state_of size above v }
{
    let mut state = v;
    for passed in 0..above {
        if state < size {
            return state;
        }
        state -= size;
    }
    state
}

// The marks of so many kinds, eight words for each of four, packed into eight: one bit for each state of the layers.
pub fn pack(marks: &[u64; 32], size: u16, kinds: u16) -> [u64; 8]
    requires { (0 < kinds) × (kinds ≤ 4) × (0 < size) × (kinds * size ≤ 512) }
    ensures { Packed size kinds (by_kind marks.now) result }
{
    let mut words: [u64; 8] = [0; 8];
    let end = times(kinds, size);
    let mut s: usize = 0;
    let mut first: usize = 0;
    for v in 0..end {
        if marks::accepts_in(marks, first + s) {
            marks::set_mark(&mut words, v);
        }
        s += 1;
        if s == wide(size) {
            s = 0;
            first += 512;
        }
    }
    words
}

// Clears the bits from one on.
fn clear_from(words: &mut [u64; 8], first: usize)
    ensures { ClearedFrom first words.old words.new }
{
    for v in first..STATES {
        marks::clear_mark(words, v);
    }
}

// The packed marks where another count of kinds is in use: those of the kinds that stay in use, and no others.
pub fn keep_kinds(words: &mut [u64; 8], size: u16, kinds: u16, new: u16)
    ensures { ClearedFrom (min kinds new * size) words.old words.new }
{
    clear_from(words, times(kinds.min(new), size));
}

// Where the moves of v land: what is added to their targets.
fn base_of(words: &[u64; 8], v: usize, at: usize, size: u16, left: u16) -> u16
    requires { at ≤ 512 }
    ensures { (layer above : ℕ) → at ≡ copy size layer 0 → (0 < size → layer + left ≡ above) → result ≡ copy size (landing (suc above) (accepts words.now v) layer) 0 % 512 }
{
    if !marks::accepts_in(words, v) {
        return (at % STATES) as u16;
    }
    if left == 0 {
        return 0;
    }
    ((at + wide(size)) % STATES) as u16
}

// The rows of every copy, layer by layer.
fn lay_copies(starts: &[u16; 513], words: &[u64; 8], size: u16, above: u16, layout: &mut Layout)
    requires { layout.old.begins ≡ starts.now }
    ensures { layout.new ≡ layered size above starts.now words.now }
{
    let mut s: usize = 0;
    let mut at: usize = 0;
    let mut left = above;
    for v in 0..STATES {
        layout.begins[v] = starts[s];
        layout.ends[v] = starts[s + 1];
        layout.bases[v] = base_of(words, v, at, size, left);
        s += 1;
        if s == wide(size) {
            if 0 < left {
                s = 0;
                at += wide(size);
                left -= 1;
            }
        }
    }
}

// Where the rows of the layers lie. Those of a game of one kind are its rows as they stand: they begin at the starts, and nothing is added.
pub fn lay(starts: &[u16; 513], words: &[u64; 8], size: u16, above: u16) -> Layout
    ensures { result ≡ layered size above starts.now words.now }
{
    let mut layout = Layout {
        begins: *starts,
        ends: [0; 512],
        bases: [0; 512],
    };
    look::lay_ends(starts, &mut layout.ends);
    if above != 0 {
        lay_copies(starts, words, size, above, &mut layout);
    }
    layout
}
