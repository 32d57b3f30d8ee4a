// One session: the game's table and the records of its search. It is made by a load and by nothing else.
#![tactic(auto)]

ghost use Rattle.std.specs.Prelude.{◌≡◌, ◌+◌, ◌-◌, is_some};
ghost use Rattle.plain.specs.Table.{by_kind};
ghost use Rattle.question.specs.Replies.{question_of};
ghost use Rattle.batch.specs.Batches.{numbers_in};
ghost use Rattle.session.specs.Model.{session_of, total_in, states_in, game_in, is_found, verdict_of, no_verdict, no_arrays, no_records, Sought, alone_line, no_game, Settles, SettlesAfresh, UpdatedIn, KindsSet, Performed};
ghost use Rattle.session.specs.Promises.{command_of, Loads, Updates, Replies};

use batch::{BatchLine, Command, Update};
use question::{Question, Reply, Topic};
use rows::Rows;
use search::Records;
use table::{Arrays, Position, Trial};
use verdict::Answer;

// What a search has come to: the lengths of stem and walk (0: no walk), the height of the open path, and the probes.
#[derive(Clone, Copy)]
struct Verdict {
    stem: u16,
    length: u16,
    height: u16,
    spent: u16,
    kept: u16,
}

// The answer to a call, what its search has come to, and the count of kinds that it leaves.
#[derive(Clone, Copy)]
struct Settled {
    answer: Answer,
    verdict: Verdict,
    kinds: u16,
}

// The numbers of the game and its arrays, and what its last search has left: stem and length are those of the walk (0: none), height that of the open path at the search's end, total
// counts its probes. The records go by state of the layers; the words have one bit for each of these.
#[derive(Clone, Copy)]
pub struct Session {
    size: u16,
    start: u16,
    kinds: u16,
    arrays: Arrays,
    records: Records,
    stem: u16,
    length: u16,
    height: u16,
    total: u16,
}

#[derive(Clone, Copy)]
pub struct Outcome {
    pub answer: Answer,
    pub session: Session,
}

// 2 × 2,048 + 3 × 512 + 2: no search takes more steps, and a phase of it is one step or more.
const PHASES: u16 = 5634;

// Has the search found a cycle?
fn is_found(phase: search::Phase) -> bool
    ensures { result ≡ is_found phase }
{
    matches!(phase, search::Phase::Found)
}

// What a search has come to that is over, with so many probes spent.
fn verdict_of(w: search::Walker, spent: u16) -> Verdict
    ensures { result ≡ verdict_of w spent }
{
    if is_found(w.phase) {
        return Verdict {
            stem: w.stem,
            length: w.top,
            height: w.height,
            spent,
            kept: w.kept,
        };
    }
    Verdict {
        stem: 0,
        length: 0,
        height: 0,
        spent,
        kept: w.kept,
    }
}

// The search, taken up. The count of probes spent is 0 here, and only the search raises it. Where it is taken up nowhere, all is as it was, and kept.
fn seek(
    arrays: &Arrays,
    records: &mut Records,
    size: u16,
    kinds: u16,
    start: u16,
    from: Option<u16>,
    old: Verdict,
) -> Verdict
    ensures { Sought (game_in size kinds arrays.now) (states_in size kinds) start from old records.old result records.new }
{
    match from {
        None => old,
        Some(s) => {
            let layout = layers::lay(&arrays.rows.starts, &arrays.words, size, look::down(kinds));
            let mut spent: u16 = 0;
            let game = look::Game {
                targets: &arrays.rows.targets,
                layout: &layout,
                words: &arrays.words,
                size,
            };
            let states = look::times_within(size, kinds);
            let w = search::resume(game, records, &mut spent, states, start, s, PHASES);
            verdict_of(w, spent)
        }
    }
}

// The arrays of no game, and of one before its moves are filed.
fn no_arrays() -> Arrays
    ensures { result ≡ no_arrays }
{
    Arrays {
        rows: Rows {
            starts: [0; 513],
            targets: [0; 2048],
        },
        words: [0; 8],
        indegree: [0; 512],
    }
}

// The records of no search.
fn no_records() -> Records
    ensures { result ≡ no_records }
{
    Records {
        number: [0; 512],
        parent: [0; 512],
        index: [0; 512],
        probes: [0; 512],
        stamp: [0; 512],
        walk: [0; 512],
    }
}

// What stands in place of a session where a load is refused: it has no state, so every change of it is refused.
fn no_game() -> Session
    ensures { result ≡ no_game }
{
    Session {
        size: 0,
        start: 0,
        kinds: 0,
        arrays: no_arrays(),
        records: no_records(),
        stem: 0,
        length: 0,
        height: 0,
        total: 0,
    }
}

// Before the first search nothing is found, and no probe was made.
fn no_verdict() -> Verdict
    ensures { result ≡ no_verdict }
{
    Verdict {
        stem: 0,
        length: 0,
        height: 0,
        spent: 0,
        kept: 0,
    }
}

// The probes of the whole search.
fn total_of(v: Verdict) -> u16
    ensures { result ≡ total_in v }
{
    look::plus(v.kept, v.spent)
}

// Searches and answers: the search is taken up, and the walk is written into the lent list.
fn settle(
    arrays: &Arrays,
    records: &mut Records,
    size: u16,
    kinds: u16,
    start: u16,
    from: Option<u16>,
    old: Verdict,
    lent: &mut [u16],
) -> Settled
    ensures { Settles size kinds (game_in size kinds arrays.now) start from old records.old lent.old result records.new lent.new }
{
    let v = seek(arrays, records, size, kinds, start, from, old);
    let above = look::down(kinds);
    let answer = verdict::tell(
        v.spent,
        v.kept,
        v.stem,
        v.length,
        size,
        above,
        &records.walk,
        lent,
    );
    Settled {
        answer,
        verdict: v,
        kinds,
    }
}

// Searches from the start and answers. Of what the records held before, nothing is used.
fn search_afresh(
    arrays: &Arrays,
    records: &mut Records,
    size: u16,
    kinds: u16,
    start: u16,
    lent: &mut [u16],
) -> Settled
    ensures { SettlesAfresh size kinds (game_in size kinds arrays.now) start records.old.walk lent.old result records.new lent.new }
{
    search::begin(
        &mut records.number,
        &mut records.parent,
        &mut records.index,
        &mut records.probes,
        &mut records.stamp,
        start,
    );
    settle(
        arrays,
        records,
        size,
        kinds,
        start,
        Some(start),
        no_verdict(),
        lent,
    )
}

// Loads a game: the count of states, the start state, the count of kinds of pay, the paying words, eight for each of four kinds, the moves as a list of numbers, and the list lent
// for the walk.
pub fn load(
    size: u16,
    start: u16,
    kinds: u16,
    marks: [u64; 32],
    numbers: &[u16],
    lent: &mut [u16],
) -> Outcome
    ensures { Loads (record { size = size; start = start; kinds = kinds; marks = by_kind marks; numbers = numbers.now }) lent.old result lent.new }
{
    let mut out = Outcome {
        answer: verdict::refused(2, Position::Alone),
        session: no_game(),
    };
    let s = &mut out.session;
    let entries = lent.len();
    let trial = table::load_trial(
        size,
        start,
        kinds,
        &marks,
        numbers,
        &mut s.arrays.rows,
        entries,
    );
    if let Trial::Refused(n) = trial {
        return Outcome {
            answer: verdict::refused(n, Position::Alone),
            session: no_game(),
        };
    }
    s.arrays.words = layers::pack(&marks, size, kinds);
    table::count_edges(numbers, &mut s.arrays.indegree);
    let r = search_afresh(&s.arrays, &mut s.records, size, kinds, start, lent);
    s.size = size;
    s.start = start;
    let answer = conclude(s, r);
    out.answer = answer;
    out
}

// A call on the arrays of a session: tried and made in the table's, then searched and answered. Where it is refused, all are as they were.
fn update_in(
    alone: Option<BatchLine>,
    lines: &[u16],
    arrays: &mut Arrays,
    records: &mut Records,
    size: u16,
    kinds: u16,
    start: u16,
    old: Verdict,
    lent: &mut [u16],
) -> Settled
    ensures { UpdatedIn (is_some alone) (numbers_in alone lines.now) size kinds start old arrays.old records.old lent.old result arrays.new records.new lent.new }
{
    let from = resumption::where_to_resume(
        alone,
        lines,
        size,
        kinds,
        &arrays.rows,
        &records.number,
        &records.index,
        &records.walk,
        old.height,
    );
    let room = lent.len();
    let attempt = batch::attempt_call(alone, lines, size, kinds, arrays, room);
    if let Trial::Refused(n) = attempt.trial {
        return Settled {
            answer: verdict::refused(n, attempt.position),
            verdict: old,
            kinds,
        };
    }
    settle(arrays, records, size, kinds, start, from, old, lent)
}

// Another count of kinds on the arrays of a session: tried and set in the table's, then searched from the start and answered. Where it is refused, all are as they were.
fn set_kinds_in(
    new: u16,
    arrays: &mut Arrays,
    records: &mut Records,
    size: u16,
    kinds: u16,
    start: u16,
    old: Verdict,
    lent: &mut [u16],
) -> Settled
    ensures set { KindsSet new size kinds start old arrays.old.rows arrays.old.words records.old lent.old result arrays.new.words records.new lent.new }
    ensures moves_kept { (arrays.new.rows ≡ arrays.old.rows) × (arrays.new.indegree ≡ arrays.old.indegree) }
{
    let trial = table::attempt_kinds(
        new,
        size,
        kinds,
        &arrays.rows.starts,
        &mut arrays.words,
        lent.len(),
    );
    if let Trial::Refused(n) = trial {
        return Settled {
            answer: verdict::refused(n, Position::Alone),
            verdict: old,
            kinds,
        };
    }
    search_afresh(arrays, records, size, new, start, lent)
}

// The line of one change. The lines of a batch are those of the lent list.
fn alone_line(asked: Update) -> Option<BatchLine>
    ensures { result ≡ alone_line asked }
{
    match asked {
        Update::Change(op) => Some(batch::line_of(op)),
        Update::Batch => None,
    }
}

// A call on the arrays of a session, by what it asks for.
fn perform(
    command: Command,
    lines: &[u16],
    arrays: &mut Arrays,
    records: &mut Records,
    size: u16,
    kinds: u16,
    start: u16,
    old: Verdict,
    lent: &mut [u16],
) -> Settled
    ensures { Performed command lines.now size kinds start old arrays.old records.old lent.old result arrays.new records.new lent.new }
{
    match command {
        Command::Update(asked) => update_in(
            alone_line(asked),
            lines,
            arrays,
            records,
            size,
            kinds,
            start,
            old,
            lent,
        ),
        Command::Kinds(new) => { set_kinds_in(new, arrays, records, size, kinds, start, old, lent) }
    }
}

// What a call has come to is put into the session, and answered.
fn conclude(s: &mut Session, r: Settled) -> Answer
    ensures answer { result ≡ r.answer }
    ensures session { s.new ≡ session_of s.old.size s.old.start r.kinds s.old.arrays s.old.records r.verdict (total_in r.verdict) }
{
    let v = r.verdict;
    s.kinds = r.kinds;
    s.stem = v.stem;
    s.length = v.length;
    s.height = v.height;
    s.total = total_of(v);
    r.answer
}

// A call on a session: one change of the game, a batch of lines, which are all made or none, or another count of kinds. Of a batch, `lines` has three numbers for each line
// (BatchLine); no other call reads it. The list lent for the walk comes last. The session is copied once, into what goes out, and worked on there; until it is answered, nothing is spent.
pub fn update(s: Session, command: Command, lines: &[u16], lent: &mut [u16]) -> Outcome
    ensures { Updates (command_of command lines.now) s lent.old result lent.new }
{
    let mut out = Outcome {
        answer: Answer::Clear {
            spent: 0,
            kept: s.total,
        },
        session: s,
    };
    let old = Verdict {
        stem: s.stem,
        length: s.length,
        height: s.height,
        spent: 0,
        kept: s.total,
    };
    let r = perform(
        command,
        lines,
        &mut out.session.arrays,
        &mut out.session.records,
        s.size,
        s.kinds,
        s.start,
        old,
        lent,
    );
    let answer = conclude(&mut out.session, r);
    out.answer = answer;
    out
}

// A question on a session. It changes nothing and lends no list. Of the session's arrays those are taken out that its topic reads, so that the rest is not copied.
pub fn ask(s: Session, question: Question) -> Reply
    ensures { Replies (question_of question) s result }
{
    match question.topic {
        Topic::Ways => {
            let starts = s.arrays.rows.starts;
            let indegree = s.arrays.indegree;
            question::ways(s.size, &starts, &indegree, question.number)
        }
        Topic::Short => {
            let rows = s.arrays.rows;
            let words = s.arrays.words;
            let present = look::minus(s.length, s.stem);
            question::short(
                s.size,
                s.kinds,
                s.start,
                present,
                &rows,
                &words,
                question.number,
            )
        }
    }
}
