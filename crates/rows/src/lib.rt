// The edges as compressed rows: the targets of v's edges stand at starts[v] to starts[v + 1], oldest first.
// The states are the numbers below a size: starts[size] is the count of edges, and every start behind it is 0, so that a change moves no more starts than the table has.
// Every function is safe for any contents of the arrays.
#![tactic(auto)]

ghost use Rattle.std.specs.Prelude.{◌≡◌, ◌<◌, ◌≤◌, get_or};
ghost use Rattle.rows.specs.Rows.{degree_at, row_at, edge_count, place_of};
ghost use Rattle.rows.specs.Shift.{opened, shut, moved_one, moved_starts};
ghost use Rattle.rows.specs.Change.{inserted, removed};

// The most states of a table.
pub const STATES: u16 = 512;

// A start for each state, and one behind the last.
pub const STARTS: usize = 513;

// The most edges of a table.
pub const EDGES: usize = 2048;

// The rows: the targets of all edges, and where each state's row starts among them.
#[derive(Clone, Copy)]
pub struct Rows {
    pub starts: [u16; STARTS],
    pub targets: [u16; EDGES],
}

// A number as an index.
pub fn wide(x: u16) -> usize
    ensures { (result ≡ x) × (result < 65536) }
{
    x as usize
}

// A start one place further up, or down. The largest number stays, and 0: rows have no such start to move, other arrays may.
fn moved_one(x: u16, up: bool) -> u16
    ensures { result ≡ moved_one up x }
{
    if up {
        x.saturating_add(1)
    } else {
        x.saturating_sub(1)
    }
}

// t at place at: the entries from there to count move up by one place.
fn shift_up(targets: &mut [u16; EDGES], at: usize, count: usize, t: u16)
    requires { (at ≤ count) × (count < 2048) }
    ensures { targets.new ≡ opened targets.old at count t }
{
    let mut carry = t;
    for j in at..count + 1 {
        let x = targets[j];
        targets[j] = carry;
        carry = x;
    }
}

// The entries behind place at, up to count, move down by one place.
fn shift_down(targets: &mut [u16; EDGES], at: usize, count: usize)
    requires { (at < count) × (count ≤ 2048) }
    ensures { targets.new ≡ shut targets.old at count }
{
    for j in at..count - 1 {
        targets[j] = targets[j + 1];
    }
}

// The starts from one to the last, both included, are one place further up, or down: so are the rows that start there.
fn move_starts(starts: &mut [u16; STARTS], from: usize, last: usize, up: bool)
    requires { (from ≤ last) × (last < 513) }
    ensures { starts.new ≡ moved_starts up starts.old from last }
{
    for j in from..last + 1 {
        starts[j] = moved_one(starts[j], up);
    }
}

// Where the row of v starts; 0 past the last.
// Kept: functions of the starts, this and the next two, beside the methods of `Rows`: who asks need not hold the targets.
pub fn start_of(starts: &[u16; STARTS], v: usize) -> u16
    ensures { result ≡ get_or starts.now v 0 }
{
    if v < STARTS { starts[v] } else { 0 }
}

// The count of all edges: where the rows of the states below size end.
pub fn edge_count(starts: &[u16; STARTS], size: u16) -> u16
    ensures { result ≡ edge_count starts.now size }
{
    start_of(starts, wide(size))
}

// The count of edges that leave v.
pub fn degree(starts: &[u16; STARTS], v: u16) -> u16
    ensures { result ≡ degree_at starts.now v }
{
    let from = start_of(starts, wide(v));
    let to = start_of(starts, wide(v) + 1);
    to.saturating_sub(from)
}

impl Rows {
    // Where the row of v starts, of these rows; 0 past the last.
    pub fn start_of(&self, v: usize) -> u16
        ensures { result ≡ get_or self.now.starts v 0 }
    {
        start_of(&self.starts, v)
    }

    // The count of all edges, of these rows.
    pub fn edge_count(&self, size: u16) -> u16
        ensures { result ≡ edge_count self.now.starts size }
    {
        edge_count(&self.starts, size)
    }

    // The count of edges that leave v, of these rows.
    pub fn degree(&self, v: u16) -> u16
        ensures { result ≡ degree_at self.now.starts v }
    {
        degree(&self.starts, v)
    }

    // The target of edge k of v; 0 where there is none.
    fn target(&self, v: u16, k: u16) -> u16
        ensures { result ≡ get_or (row_at self.now.targets self.now.starts v) k 0 }
    {
        if k < self.degree(v) {
            let at = wide(self.start_of(wide(v))) + wide(k);
            if at < EDGES {
                return self.targets[at];
            }
        }
        0
    }

    // The place of t in the row of v; the degree of v where it is not there.
    pub fn place(&self, v: u16, t: u16) -> u16
        ensures { result ≡ place_of t (row_at self.now.targets self.now.starts v) }
    {
        let n = self.degree(v);
        for k in 0..n {
            if self.target(v, k) == t {
                return k;
            }
        }
        n
    }

    // An edge from v to t, the newest of the row of v: what stands behind moves up by one place. Where it has no room, nothing is done.
    pub fn insert(&mut self, size: u16, v: u16, t: u16)
        ensures { self.new ≡ inserted size v t self.old }
    {
        let i = wide(v);
        let at = wide(self.start_of(i + 1));
        let count = wide(self.edge_count(size));
        if size <= STATES && v < size && at <= count && count < EDGES {
            shift_up(&mut self.targets, at, count, t);
            move_starts(&mut self.starts, i + 1, wide(size), true);
        }
    }

    // Edge k of v is taken out: what stands behind moves down by one place. Where there is none, nothing is done.
    pub fn remove(&mut self, size: u16, v: u16, k: u16)
        ensures { self.new ≡ removed size v k self.old }
    {
        let i = wide(v);
        let at = wide(self.start_of(i)) + wide(k);
        let count = wide(self.edge_count(size));
        if size <= STATES && v < size && at < count && count <= EDGES {
            shift_down(&mut self.targets, at, count);
            move_starts(&mut self.starts, i + 1, wide(size), false);
        }
    }
}
