// Output lines, put into a lent buffer: bytes, decimal numbers, whole lines.
#![tactic(auto)]

ghost use Rattle.std.specs.Prelude.{◌∷◌, [], ◌++◌, ◌+◌, ◌≤◌, ◌<◌, length};
ghost use Rattle.plain.specs.Machine.{numbered, at_line, game_line, round_line, none_line, no_line, ways_line, short_line, no_round_line};
ghost use Rattle.answer.specs.Bytes.{Put};
ghost use Rattle.answer.specs.Rendering.{decimal, field_of, fields_of, line_of, render};

// The words of the output lines, beside `game`, `ways` and `short`.
const ROUND_WORD: [u8; 5] = *b"round";

const NONE_WORD: [u8; 4] = *b"none";

const NO_WORD: [u8; 2] = *b"no";

// Puts bytes at a place, and returns the index behind them.
// Kept: output and place as two parameters, as the public contracts name them; a struct would be made and taken apart in each public function.
pub fn put(out: &mut [u8], at: usize, src: &[u8]) -> usize
    requires { at + length src.now ≤ length out.old }
    ensures { Put out.old at src.now out.new result }
{
    let end = at + src.len();
    out[at..end].copy_from_slice(src);
    end
}

// Puts one byte.
#[tactic(auto, using(crate::proofs::Laws::put_set))]
fn put_byte(out: &mut [u8], at: usize, b: u8) -> usize
    requires { at < length out.old }
    ensures { Put out.old at (b ∷ []) out.new result }
{
    out[at] = b;
    at + 1
}

// Puts the decimal digits of a number.
#[tactic(auto, using(crate::proofs::Laws::decimals))]
fn put_decimal(out: &mut [u8], at: usize, n: u16) -> usize
    requires { at + length (decimal n) ≤ length out.old }
    ensures { Put out.old at (decimal n) out.new result }
{
    let digit = b'0' + (n % 10) as u8;
    if n < 10 {
        return put_byte(out, at, digit);
    }
    let next = put_decimal(out, at, n / 10);
    put_byte(out, next, digit)
}

// Puts a tab and a number.
#[tactic(auto, using(crate::proofs::Laws::length_field))]
fn put_field(out: &mut [u8], at: usize, n: u16) -> usize
    requires { at + length (field_of n) ≤ length out.old }
    ensures { Put out.old at (field_of n) out.new result }
{
    let next = put_byte(out, at, line::TAB);
    put_decimal(out, next, n)
}

// Puts a tab and a number for each entry of a list.
fn put_fields(out: &mut [u8], at: usize, numbers: &[u16]) -> usize
    requires { at + length (fields_of numbers.now) ≤ length out.old }
    ensures { Put out.old at (fields_of numbers.now) out.new result }
{
    let mut next = at;
    for n in numbers {
        next = put_field(out, next, *n);
    }
    next
}

// Puts a line: its word, its numbers in two lists, and the newline.
#[tactic(auto, using(crate::proofs::Laws::length_parts))]
fn put_line(out: &mut [u8], at: usize, word: &[u8], head: &[u16], tail: &[u16]) -> usize
    requires { at + length (line_of word.now (head.now ++ tail.now)) ≤ length out.old }
    ensures { Put out.old at (line_of word.now (head.now ++ tail.now)) out.new result }
{
    let a = put(out, at, word);
    let b = put_fields(out, a, head);
    let c = put_fields(out, b, tail);
    put_byte(out, c, line::NEWLINE)
}

// The line of an accepted load.
#[tactic(auto, unfolding(crate::specs::Rendering::render, line::specs::Fields::bytes))]
pub fn put_game(out: &mut [u8], at: usize, size: u16, moves: u16, paying: u16) -> usize
    requires { at + length (render (game_line size moves paying)) ≤ length out.old }
    ensures { Put out.old at (render (game_line size moves paying)) out.new result }
{
    put_line(out, at, &line::GAME, &[size, moves, paying], &[])
}

// The answer of a round that was found.
#[tactic(auto, unfolding(crate::specs::Rendering::render, line::specs::Fields::bytes))]
pub fn put_round(
    out: &mut [u8],
    at: usize,
    spent: u16,
    kept: u16,
    stem: u16,
    cycle: u16,
    walk: &[u16],
) -> usize
    requires { at + length (render (round_line spent kept stem cycle walk.now)) ≤ length out.old }
    ensures { Put out.old at (render (round_line spent kept stem cycle walk.now)) out.new result }
{
    put_line(out, at, &ROUND_WORD, &[spent, kept, stem, cycle], walk)
}

// The answer where there is no round.
#[tactic(auto, unfolding(crate::specs::Rendering::render, line::specs::Fields::bytes))]
pub fn put_none(out: &mut [u8], at: usize, spent: u16, kept: u16) -> usize
    requires { at + length (render (none_line spent kept)) ≤ length out.old }
    ensures { Put out.old at (render (none_line spent kept)) out.new result }
{
    put_line(out, at, &NONE_WORD, &[spent, kept], &[])
}

// The counts of moves that leave and enter a state.
#[tactic(auto, unfolding(crate::specs::Rendering::render, line::specs::Fields::bytes))]
pub fn put_ways(out: &mut [u8], at: usize, state: u16, leaving: u16, entering: u16) -> usize
    requires { at + length (render (ways_line state leaving entering)) ≤ length out.old }
    ensures { Put out.old at (render (ways_line state leaving entering)) out.new result }
{
    put_line(out, at, &line::WAYS, &[state, leaving, entering], &[])
}

// The answer of `short`: the length of the best round known, and the smallest length not ruled out.
#[tactic(auto, unfolding(crate::specs::Rendering::render, line::specs::Fields::bytes))]
pub fn put_short(out: &mut [u8], at: usize, best: u16, least: u16) -> usize
    requires { at + length (render (short_line best least)) ≤ length out.old }
    ensures { Put out.old at (render (short_line best least)) out.new result }
{
    put_line(out, at, &line::SHORT, &[best, least], &[])
}

// The answer of `short` where there is no round: `none` alone.
#[tactic(auto, unfolding(crate::specs::Rendering::render, line::specs::Fields::bytes))]
pub fn put_no_round(out: &mut [u8], at: usize) -> usize
    requires { at + length (render no_round_line) ≤ length out.old }
    ensures { Put out.old at (render no_round_line) out.new result }
{
    put_line(out, at, &NONE_WORD, &[], &[])
}

// A refusal.
#[tactic(auto, unfolding(crate::specs::Rendering::render, line::specs::Fields::bytes))]
pub fn put_no(out: &mut [u8], at: usize, number: u16) -> usize
    requires { at + length (render (no_line (numbered number))) ≤ length out.old }
    ensures { Put out.old at (render (no_line (numbered number))) out.new result }
{
    put_line(out, at, &NO_WORD, &[number], &[])
}

// A refused batch: the number, and the position of its line.
#[tactic(auto, unfolding(crate::specs::Rendering::render, line::specs::Fields::bytes))]
pub fn put_no_at(out: &mut [u8], at: usize, number: u16, position: u16) -> usize
    requires { at + length (render (no_line (record { number = number; position = at_line position }))) ≤ length out.old }
    ensures { Put out.old at (render (no_line (record { number = number; position = at_line position }))) out.new result }
{
    put_line(out, at, &NO_WORD, &[number, position], &[])
}
