// Lines from standard input, and answers to standard output: what the programs share.
#![tactic(auto)]

ghost use Rattle.std.specs.Prelude.{◌≡◌, ◌≤◌, length, take};
ghost use Rattle.std.specs.Io.KnownBytes.{Consumes};
ghost use Rattle.console.specs.Lines.{chunk, held_most, Within, Took, Next, is_more, has_line, is_line, first_reader, reader_behind, end_of, bytes_told, Printed};

use lead::Lead;
use question::Reply;
use std::io::{Read, Stdin, Stdout, Write};
use verdict::Answer;

// A read brings at most so many bytes.
pub const CHUNK: usize = 512;

// Of a line so many bytes are held: the 33rd shows that it is too long.
pub const HELD: usize = 33;

// What the bytes so far come to: the line goes on, a line is held whole, it is the last one, or there is none to come.
#[derive(Clone, Copy, PartialEq, Eq)]
enum Status {
    More,
    Line,
    Last,
    Over,
}

// Where the reading stands: the bytes of the last read that are taken, how many it brought, how many bytes of a line are held, how many may
// still come, and what they come to.
#[derive(Clone, Copy)]
pub struct Reader {
    at: usize,
    end: usize,
    pub len: usize,
    left: usize,
    status: Status,
}

// The reader before the first byte.
pub fn begin() -> Reader
    ensures { result ≡ first_reader }
{
    Reader {
        at: 0,
        end: 0,
        len: 0,
        left: watch::LIMIT,
        status: Status::More,
    }
}

impl Reader {
    // The reader behind a line.
    pub fn onward(self) -> Reader
        ensures { result ≡ reader_behind self }
    {
        Reader {
            len: 0,
            status: Status::More,
            ..self
        }
    }

    // Is there a line to answer?
    pub fn has_line(self) -> bool
        ensures { result ≡ has_line self.status }
    {
        matches!(self.status, Status::Line | Status::Last)
    }

    // Did its newline come, so that another line may follow?
    pub fn is_line(self) -> bool
        ensures { result ≡ is_line self.status }
    {
        self.status == Status::Line
    }

    // Does the line go on?
    fn is_more(self) -> bool
        ensures { result ≡ is_more self.status }
    {
        self.status == Status::More
    }

    // Where the input ends: what is held is the last line, if it is not empty.
    #[tactic(auto, unfolding(crate::specs::Lines::end_of))]
    fn at_end(self) -> Reader
        ensures { result ≡ end_of self }
    {
        let status = if self.len == 0 {
            Status::Over
        } else {
            Status::Last
        };
        Reader {
            at: 0,
            end: 0,
            status,
            ..self
        }
    }
}

// Takes bytes up to a newline, or up to the end of the read or of what may still come. How many may come is counted once, for all bytes that were taken.
fn take_bytes(buf: &[u8], held: &mut [u8; HELD], r: Reader) -> Reader
    requires { Within r (length buf.now) × (length held.old ≡ held_most) }
    ensures { Took r held.old buf.now result held.new }
{
    let stop = r.at + r.left.min(r.end - r.at);
    let mut len = r.len;
    for at in r.at..stop {
        let b = buf[at];
        if b == line::NEWLINE {
            return Reader {
                at: at + 1,
                len,
                left: r.left - (at + 1 - r.at),
                status: Status::Line,
                ..r
            };
        }
        if len < HELD {
            held[len] = b;
            len += 1;
        }
    }
    let left = r.left - (stop - r.at);
    let status = if stop < r.end {
        Status::Over
    } else {
        Status::More
    };
    Reader {
        at: stop,
        len,
        left,
        status,
        ..r
    }
}

// How many bytes one read brings, at the start of the buffer: none where it fails.
pub fn read_once<R: Read>(input: &mut R, buf: &mut [u8]) -> usize
    ensures within { result ≤ length buf.new }
    ensures size { length buf.new ≡ length buf.old }
    ensures bytes { Consumes (R.remaining input.old) (R.remaining input.new) (take result buf.new) }
{
    input.read(buf).unwrap_or(0)
}

// Reads until the block is full, or the input ends or a read fails: how many bytes that brings.
pub fn read_full<R: Read>(input: &mut R, block: &mut [u8]) -> usize
    ensures within { result ≤ length block.new }
    ensures size { length block.new ≡ length block.old }
    ensures bytes { Consumes (R.remaining input.old) (R.remaining input.new) (take result block.new) }
{
    let mut done = 0;
    while done < block.len() {
        let n = read_once(input, &mut block[done..]);
        if n == 0 {
            return done;
        }
        done += n;
    }
    done
}

// The next line, read on as far as it takes. A read that fails counts as the end of the input.
pub fn next_line(
    mut input: Stdin,
    buf: &mut [u8; CHUNK],
    held: &mut [u8; HELD],
    r: Reader,
) -> Reader
    requires { Within r chunk × (length buf.old ≡ chunk) × (length held.old ≡ held_most) }
    ensures { Next r held.old buf.old result held.new buf.new }
{
    let mut s = take_bytes(buf, held, r);
    while s.is_more() {
        let end = read_once(&mut input, buf);
        if end == 0 {
            return s.at_end();
        }
        let fresh = Reader {
            at: 0,
            end,
            status: Status::More,
            ..s
        };
        s = take_bytes(buf, held, fresh);
    }
    s
}

// How many of the bytes, from their start on, one write takes: none where it fails.
fn write_once(mut output: Stdout, bytes: &[u8]) -> usize
    ensures { result ≤ length bytes.now }
{
    output.write(bytes).unwrap_or(0)
}

// Writes the lines that answer a line, as often as it takes: false where a write takes nothing or fails. Only this function writes. Its parameters fix what it
// writes: the line that was read, what was held before it, the marks behind it, the answer, the reply and the walk. That the plain definition prints these bytes for this line is true behind
// some earlier lines, which only the history of the reads holds. No contract says that a write happened: only the tests see that.
pub fn print(
    output: Stdout,
    line: &[u8],
    lead: Lead,
    marks: &[u64; 32],
    answer: Answer,
    reply: Reply,
    walk: &[u16],
    bytes: &[u8],
) -> bool
    requires { (bytes.now ≡ bytes_told line.now lead marks.now answer reply walk.now) × Printed line.now bytes.now }
{
    // Kept: what may not change. Where a write is interrupted the program ends, and `write_all` would try it again.
    let mut rest = bytes;
    while !rest.is_empty() {
        let put = write_once(output, rest);
        if put == 0 {
            return false;
        }
        rest = &rest[put..];
    }
    true
}
