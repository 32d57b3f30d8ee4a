// Replays scripts of loads, changes, batches, new counts of kinds and questions, and prints what each is answered.
// Standard input is a list of blocks of 65,536 bytes, of which the last may be shorter. Each is a script, which starts without a session: 16-bit numbers, the low
// byte first.
// - a load: 1, size, start, kinds of pay, a count, the paying words of so many kinds (at most 4) as 32 numbers each, a count, so many numbers of moves, room
// - a change: 2 (add) or 3 (cut) and two states, or 4 (mark) or 5 (unmark) and a state and a kind, room
// - a batch: 6, room, a count, so many lines of three numbers: 2 to 5 as above, or any other for a line that makes no change, and two more
// - a question: 7, a state; or 9, a budget of looks for a short round
// - another count of kinds: 8, the count, room
// - 0 at the end
// The room says how much of the list is lent.
// What is printed, a number on each line:
// - of a refusal 0 and its number; if it is that of a batch, 3, its number and the position
// - of no round 1, and the probes spent and kept
// - of a round 2, the probes, the lengths of stem and cycle, and the walk
// - behind each of these a sum of the lent list
// - of a question, which lends no list, 4, the state, and the counts of moves that leave and enter it; 5 and the two lengths, or 6 where there is no round; or 0 and the refusal's number
#![tactic(auto)]

ghost use Rattle.std.specs.Prelude.{◌≤◌, ◌<◌, length};

use batch::{Command, Update};
use question::{Question, Reply, Topic};
use session::{Outcome, Session};
use std::io::Stdout;
use table::{Op, Position, Refusal};
use verdict::Answer;

const BLOCK: usize = 65536;

// So much of a list is there to be lent.
const ROOM: usize = 600;

// The most kinds whose words a load has.
const KINDS: usize = 4;

// The most lines of a batch in a script.
const LINES: usize = 70;

// What the number at the head of a call says.
#[derive(Clone, Copy)]
enum Call {
    End,
    Load,
    Add,
    Cut,
    Mark,
    Unmark,
    Batch,
    Ways,
    Kinds,
    Short,
}

impl From<u16> for Call {
    fn from(number: u16) -> Call {
        match number {
            0 => Call::End,
            1 => Call::Load,
            3 => Call::Cut,
            4 => Call::Mark,
            5 => Call::Unmark,
            6 => Call::Batch,
            7 => Call::Ways,
            8 => Call::Kinds,
            9 => Call::Short,
            _ => Call::Add,
        }
    }
}

// The byte at a place; 0 past the end.
fn byte_at(text: &[u8], at: usize) -> u8 {
    text.get(at).copied().unwrap_or(0)
}

// The number at a place; 0 past the end.
fn number_at(text: &[u8], at: usize) -> u16
    requires { at < 65536 }
{
    u16::from_le_bytes([byte_at(text, at), byte_at(text, at + 1)])
}

// The four numbers there as one word.
fn word_at(text: &[u8], at: usize) -> u64
    requires { at < 1000 }
{
    let a = u64::from(number_at(text, at));
    let b = u64::from(number_at(text, at + 2));
    let c = u64::from(number_at(text, at + 4));
    let d = u64::from(number_at(text, at + 6));
    ((d * 65536 + c) * 65536 + b) * 65536 + a
}

// How many kinds the load has words for.
fn kind_count(load: &[u8]) -> usize
    ensures { result ≤ 4 }
{
    usize::from(number_at(load, 8)).min(KINDS)
}

// How many bytes the load has before the count of its numbers.
fn head_of(load: &[u8]) -> usize
    ensures { result < 300 }
{
    10 + kind_count(load) * 64
}

// The paying words of the load, eight for each kind; 0 for the kinds that it has none for.
fn words_of(load: &[u8]) -> [u64; 32] {
    let mut words: [u64; 32] = [0; 32];
    for i in 0..kind_count(load) * 8 {
        words[i] = word_at(load, 10 + i * 8);
    }
    words
}

// The numbers from a place on fill the list.
fn list_at(text: &[u8], at: usize, list: &mut [u16])
    requires { (at < 1000) × (length list.old ≤ 5000) }
{
    for i in 0..list.len() {
        list[i] = number_at(text, at + i * 2);
    }
}

// The list that is lent, with a value of its own at each place.
fn fill(lent: &mut [u16; ROOM]) {
    for i in 0..ROOM {
        lent[i] = 40000 + i as u16;
    }
}

// A number on each line. A write that fails is passed over.
fn print_lines(output: Stdout, numbers: &[u64]) {
    for n in numbers {
        let _ = println!(output; "{n}");
    }
}

// The entry at a place; 0 past the end.
fn entry(lent: &[u16], i: usize) -> u64
    ensures { result < 65536 }
{
    u64::from(lent.get(i).copied().unwrap_or(0))
}

// A sum that shows whether an entry has changed: each is taken once more than the one before it.
fn print_sum(output: Stdout, lent: &[u16]) {
    let mut tail = 0;
    let mut sum = 0;
    for i in (0..ROOM).rev() {
        tail += entry(lent, i);
        sum = (sum + tail) % 65521;
    }
    print_lines(output, &[sum]);
}

fn print_walk(output: Stdout, lent: &[u16], count: usize) {
    for i in 0..count {
        print_lines(output, &[entry(lent, i)]);
    }
}

fn print_refusal(output: Stdout, r: Refusal) {
    let number = u64::from(r.number);
    match r.position {
        Position::Alone => print_lines(output, &[0, number]),
        Position::Line(i) => print_lines(output, &[3, number, u64::from(i)]),
    }
}

fn print_answer(output: Stdout, answer: Answer, lent: &[u16]) {
    match answer {
        Answer::Refused(r) => print_refusal(output, r),
        Answer::Clear { spent, kept } => {
            print_lines(output, &[1, u64::from(spent), u64::from(kept)]);
        }
        Answer::Round {
            spent,
            kept,
            stem,
            cycle,
        } => {
            print_lines(output, &[2, spent, kept, stem, cycle].map(u64::from));
            print_walk(output, lent, usize::from(stem) + usize::from(cycle));
        }
    }
    print_sum(output, lent);
}

// The load is made, with as much of the list lent as it says.
fn load(text: &[u8], lent: &mut [u16]) -> Outcome {
    let mut list: [u16; 5000] = [0; 5000];
    let head = head_of(text);
    let count = usize::from(number_at(text, head)).min(5000);
    list_at(text, head + 2, &mut list[..count]);
    let end = head + 2 + count * 2;
    let room = usize::from(number_at(text, end)).min(lent.len());
    let words = words_of(text);
    let size = number_at(text, 2);
    let start = number_at(text, 4);
    let kinds = number_at(text, 6);
    session::load(size, start, kinds, words, &list[..count], &mut lent[..room])
}

// What the call changes.
fn op_of(text: &[u8], call: Call) -> Op {
    let first = number_at(text, 2);
    let second = number_at(text, 4);
    match call {
        Call::Cut => Op::Cut {
            from: first,
            to: second,
        },
        Call::Mark => Op::Mark {
            state: first,
            kind: second,
        },
        Call::Unmark => Op::Unmark {
            state: first,
            kind: second,
        },
        _ => Op::Add {
            from: first,
            to: second,
        },
    }
}

// What the call asks for.
fn command_of(text: &[u8], call: Call) -> Command {
    match call {
        Call::Kinds => Command::Kinds(number_at(text, 2)),
        Call::Batch => Command::Update(Update::Batch),
        _ => Command::Update(Update::Change(op_of(text, call))),
    }
}

// How many lines the call has: one that is no batch has none.
fn line_count(text: &[u8], call: Call) -> usize
    ensures { result ≤ 70 }
{
    match call {
        Call::Batch => usize::from(number_at(text, 4)).min(LINES),
        _ => 0,
    }
}

// How much of the list the call lends.
fn room_of(text: &[u8], call: Call) -> usize {
    match call {
        Call::Kinds => usize::from(number_at(text, 4)),
        Call::Batch => usize::from(number_at(text, 2)),
        _ => usize::from(number_at(text, 6)),
    }
}

// The session's number for what a line does.
fn code_of(number: u16) -> u16 {
    match number {
        2..=5 => number - 1,
        _ => 0,
    }
}

// At the head of each line, the session's number in place of the script's.
fn recode(lines: &mut [u16]) {
    for i in (0..lines.len()).step_by(batch::LINE) {
        lines[i] = code_of(lines[i]);
    }
}

// The call is made, with as much of the list lent as it says.
fn update(text: &[u8], call: Call, s: Session, lent: &mut [u16]) -> Outcome {
    let mut lines: [u16; LINES * batch::LINE] = [0; LINES * batch::LINE];
    let count = line_count(text, call) * batch::LINE;
    list_at(text, 6, &mut lines[..count]);
    recode(&mut lines[..count]);
    let command = command_of(text, call);
    let room = room_of(text, call).min(lent.len());
    session::update(s, command, &lines[..count], &mut lent[..room])
}

fn print_reply(output: Stdout, reply: Reply) {
    match reply {
        Reply::Refused(number) => print_lines(output, &[0, u64::from(number)]),
        Reply::Degrees {
            state,
            leaving,
            entering,
        } => print_lines(output, &[4, state, leaving, entering].map(u64::from)),
        Reply::Shortest { best, least } => {
            print_lines(output, &[5, u64::from(best), u64::from(least)]);
        }
        Reply::NoRound => print_lines(output, &[6]),
    }
}

// The question is asked of the session, and its reply printed.
fn ask(output: Stdout, text: &[u8], topic: Topic, s: Session) {
    let number = number_at(text, 2);
    print_reply(output, session::ask(s, Question { topic, number }));
}

// How many bytes the call has.
fn size_of(text: &[u8], call: Call) -> usize
    ensures { 0 < result }
{
    match call {
        Call::Load => {
            let head = head_of(text);
            head + 4 + usize::from(number_at(text, head)) * 2
        }
        Call::Batch => 6 + line_count(text, call) * 6,
        Call::Ways | Call::Short => 4,
        Call::Kinds => 6,
        _ => 8,
    }
}

// Replays the script of one block.
fn replay_block(output: Stdout, text: &[u8]) {
    let mut lent: [u16; ROOM] = [0; ROOM];
    // Past the end all is 0: this load is refused.
    let mut c = load(&[], &mut lent);
    let mut rest = text;
    while !rest.is_empty() {
        let call = Call::from(number_at(rest, 0));
        match call {
            Call::End => return,
            Call::Ways => ask(output, rest, Topic::Ways, c.session),
            Call::Short => ask(output, rest, Topic::Short, c.session),
            _ => {
                fill(&mut lent);
                c = match call {
                    Call::Load => load(rest, &mut lent),
                    _ => update(rest, call, c.session, &mut lent),
                };
                print_answer(output, c.answer, &lent);
            }
        }
        rest = &rest[size_of(rest, call).min(rest.len())..];
    }
}

// Nothing says that the input ends, and a proved loop has to: it counts up to a number that no run reaches.
fn main(rt: HostRuntime) {
    let mut text: [u8; BLOCK] = [0; BLOCK];
    for _ in 0..u64::MAX {
        let n = console::read_full(&mut rt.stdin(), &mut text);
        if n == 0 {
            return;
        }
        replay_block(rt.stdout(), &text[..n]);
    }
}
