// One line of the lead: a field as a part of the line, a number, a word, and the record that they make.
#![tactic(auto)]

ghost use Rattle.std.specs.Prelude.{◌≡◌, ◌+◌, ◌≤◌, length, drop};
ghost use Rattle.std.specs.Result.{result_unwrap_or};
ghost use Rattle.line.specs.Fields.{up_to, field_at};
ghost use Rattle.line.specs.Numbers.{leading_zero, number_of};
ghost use Rattle.line.specs.Records.{word_of, unreadable as Records·unreadable, record_of};
ghost use Rattle.line.specs.Items.{row_of, item_at, second_limit, filled_with};

// The words of the lead, as bytes.
pub const GAME: [u8; 4] = *b"game";

pub const PAY: [u8; 3] = *b"pay";

pub const MOVE: [u8; 4] = *b"move";

pub const GO: [u8; 2] = *b"go";

pub const ADD: [u8; 3] = *b"add";

pub const CUT: [u8; 3] = *b"cut";

pub const MARK: [u8; 4] = *b"mark";

pub const UNMARK: [u8; 6] = *b"unmark";

pub const BEGIN: [u8; 5] = *b"begin";

pub const END: [u8; 3] = *b"end";

pub const WAYS: [u8; 4] = *b"ways";

pub const KINDS: [u8; 5] = *b"kinds";

pub const SHORT: [u8; 5] = *b"short";

pub const TAB: u8 = b'\t';

pub const NEWLINE: u8 = b'\n';

// The most bytes of a line that can be read.
const LONGEST: usize = 32;

// The words that a line may begin with; a line that cannot be read has none of them.
#[derive(Clone, Copy, PartialEq, Eq)]
pub enum Word {
    Game,
    Pay,
    Move,
    Go,
    Add,
    Cut,
    Mark,
    Unmark,
    Begin,
    End,
    Ways,
    Kinds,
    Short,
    Unreadable,
}

// A row of the table of words: a word, how many numbers follow it, how large they may be, and the kind that is meant where none follows these, 0 for a
// word that takes no kind.
// Kept: 0 in place of None, since it is also what stands in the record of such a word where no kind is written (`form_of`).
#[derive(Clone, Copy)]
struct Row {
    word: Word,
    count: u16,
    limit: u16,
    kind: u16,
}

// What a line says: its word and its numbers, 0 where the word takes fewer. A kind is the second of them, 1 where none is written.
// Kept: two numbers for each word and no enum with fields, since `record_of` and the contracts of the lead name them.
#[derive(Clone, Copy)]
pub struct Record {
    pub word: Word,
    pub first: u16,
    pub second: u16,
}

// The record of a line that cannot be read.
const UNREADABLE: Record = Record {
    word: Word::Unreadable,
    first: 0,
    second: 0,
};

// A line is no record: a field of it spells no number, or there are too few or too many.
#[derive(Clone, Copy)]
struct NoRecord;

// The index of the first `stop` of s at or after a place, or the length of s.
pub fn end_of(s: &[u8], from: usize, stop: u8) -> usize
    requires { from ≤ length s.now }
    ensures { result ≡ from + up_to stop (drop from s.now) }
{
    let rest = &s[from..];
    from + rest.iter().position(|b| *b == stop).unwrap_or(rest.len())
}

// The field of the line that starts at a place: a part of the line, with no copy.
pub fn field(line: &[u8], from: usize) -> &[u8]
    requires { from ≤ length line.now }
    ensures { result.now ≡ field_at line.now from }
{
    let end = end_of(line, from, TAB);
    &line[from..end]
}

// Does a zero stand in front of more digits?
#[tactic(auto, unfolding(crate::specs::Numbers::leading_zero))]
fn has_leading_zero(s: &[u8]) -> bool
    ensures { result ≡ leading_zero s.now }
{
    1 < s.len() && s[0] == b'0'
}

// The number that a field spells, or none.
fn read_number(s: &[u8], limit: u16) -> Option<u16>
    ensures { result ≡ number_of limit s.now }
{
    if s.is_empty() || 5 < s.len() || has_leading_zero(s) {
        return None;
    }
    let mut v: u32 = 0;
    for &b in s {
        if !b.is_ascii_digit() {
            return None;
        }
        v = v * 10 + u32::from(b - b'0');
    }
    if v <= u32::from(limit) {
        Some(v as u16)
    } else {
        None
    }
}

// The table of words: how each is spelt, and what its row asks for.
const ROWS: [(&[u8], Word, u16, u16, u16); 13] = [
    (&GAME, Word::Game, 2, 65535, 0),
    (&PAY, Word::Pay, 1, 511, 1),
    (&MOVE, Word::Move, 2, 65535, 0),
    (&GO, Word::Go, 0, 65535, 0),
    (&ADD, Word::Add, 2, 65535, 0),
    (&CUT, Word::Cut, 2, 65535, 0),
    (&MARK, Word::Mark, 1, 65535, 1),
    (&UNMARK, Word::Unmark, 1, 65535, 1),
    (&BEGIN, Word::Begin, 0, 65535, 0),
    (&END, Word::End, 0, 65535, 0),
    (&WAYS, Word::Ways, 1, 65535, 0),
    (&KINDS, Word::Kinds, 1, 65535, 0),
    (&SHORT, Word::Short, 1, 65535, 0),
];

// The row of the word that a field spells.
fn read_row(s: &[u8]) -> Row
    ensures { result ≡ row_of (word_of s.now) }
{
    for &(spelling, word, count, limit, kind) in &ROWS {
        if s == spelling {
            return Row {
                word,
                count,
                limit,
                kind,
            };
        }
    }
    Row {
        word: Word::Unreadable,
        count: 0,
        limit: 65535,
        kind: 0,
    }
}

// What stands behind the field that ends at a place: a number and where its field ends, or nothing, since the line ends there.
#[tactic(auto, unfolding(crate::specs::Items::item_at))]
fn read_item(line: &[u8], at: usize, limit: u16) -> Result<Option<(u16, usize)>, NoRecord>
    requires { at ≤ length line.now }
    ensures { result ≡ item_at limit line.now at }
{
    if at == line.len() {
        return Ok(None);
    }
    let f = field(line, at + 1);
    match read_number(f, limit) {
        Some(value) => Ok(Some((value, at + 1 + f.len()))),
        None => Err(NoRecord),
    }
}

// How large the number behind the first may be: a kind is at most 4.
#[tactic(auto, unfolding(crate::specs::Items::second_limit))]
fn second_limit(row: Row) -> u16
    ensures { result ≡ second_limit row }
{
    if 0 < row.kind { 4 } else { row.limit }
}

// The record of a word behind which so many numbers stand: as many as it takes, or a kind behind them, which is not 0.
#[tactic(auto, unfolding(crate::specs::Items::filled_with))]
fn filled(row: Row, count: u16, first: u16, second: u16) -> Result<Record, NoRecord>
    requires { row.count ≤ 2 }
    ensures { result ≡ filled_with row count first second }
{
    let with_kind = 0 < row.kind && count == row.count + 1 && 0 < second;
    if count == row.count || with_kind {
        Ok(Record {
            word: row.word,
            first,
            second,
        })
    } else {
        Err(NoRecord)
    }
}

// The record that a line is, or none, where it cannot be read.
fn try_record(line: &[u8]) -> Result<Record, NoRecord>
    ensures { result_unwrap_or result Records·unreadable ≡ record_of line.now }
{
    if LONGEST < line.len() {
        return Err(NoRecord);
    }
    let name = field(line, 0);
    let row = read_row(name);
    let Some((first, end)) = read_item(line, name.len(), row.limit)? else {
        return filled(row, 0, 0, row.kind);
    };
    let Some((second, last)) = read_item(line, end, second_limit(row))? else {
        return filled(row, 1, first, row.kind);
    };
    if last != line.len() {
        return Err(NoRecord);
    }
    filled(row, 2, first, second)
}

// The record that a line is.
pub fn read_record(line: &[u8]) -> Record
    ensures { result ≡ record_of line.now }
{
    try_record(line).unwrap_or(UNREADABLE)
}
