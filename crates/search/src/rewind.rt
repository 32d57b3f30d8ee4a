// The arrays of a search as they stood when a state was discovered.
ghost use Rattle.std.specs.Prelude.{◌≡◌};
ghost use Rattle.search.specs.Core.{up_to, forget_above, climb as climbed, retrace_walk, retrace_depth, with_walk, with_depth, Fresh};

use crate::{LONGEST, Records, Trail};
use look::{NO_NUMBER, STATES, fill, get, put};
use rows::wide;

// A number up to the limit stays, any other is forgotten.
fn up_to(limit: u16, x: u16) -> u16
    ensures { result ≡ up_to limit x }
{
    if x <= limit { x } else { NO_NUMBER }
}

// Of the first `size` entries, those up to the limit stay, the others are forgotten. Each entry is stored, so that many can be stored at once.
pub fn forget_above(a: &mut [u16; 512], size: u16, limit: u16)
    ensures { a.new ≡ forget_above limit size a.old }
{
    for i in 0..wide(size).min(STATES) {
        a[i] = up_to(limit, a[i]);
    }
}

// How many states are on the chain of parents from s up to the start state, s included.
pub fn climb(parent: &[u16; 512], start: u16, s: u16) -> u16
    ensures { result ≡ climbed parent.now start 512 s }
{
    let mut x = s;
    for n in 0..LONGEST {
        if x == start {
            return n + 1;
        }
        x = get(parent, x);
    }
    LONGEST
}

// The chain of parents of s becomes the open path.
pub fn retrace(records: &mut Records, trail: &mut Trail, s: u16, height: u16)
    ensures records_after { records.new ≡ with_walk records.old (retrace_walk records.old.parent height s records.old.walk) }
    ensures trail_after { trail.new ≡ with_depth trail.old (retrace_depth records.old.parent height s trail.old.depth) }
{
    let mut x = s;
    for i in (0..height).rev() {
        put(&mut records.walk, i, x);
        put(&mut trail.depth, x, i);
        x = get(&records.parent, x);
    }
}

// The records of a search that has discovered only the start state, whatever they held. The walk is none of them: it is written before it is read. `resume` at the start state makes that search.
pub fn begin(
    number: &mut [u16; 512],
    parent: &mut [u16; 512],
    index: &mut [u16; 512],
    probes: &mut [u16; 512],
    stamp: &mut [u16; 512],
    start: u16,
)
    ensures { Fresh start number.new parent.new index.new probes.new stamp.new }
{
    fill(number, NO_NUMBER);
    put(number, start, 0);
    fill(parent, start);
    fill(index, 0);
    fill(probes, 0);
    fill(stamp, NO_NUMBER);
}
