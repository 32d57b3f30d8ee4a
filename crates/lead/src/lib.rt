// What a line asks for, and what is held from line to line.
#![tactic(auto)]

ghost use Rattle.std.specs.Prelude.{◌≡◌, ◌≤◌, length};
ghost use Rattle.line.specs.Records.{record_of};
ghost use Rattle.lead.specs.Asked.{first_lead, staged as Asked·staged, no_task, refusing as Asked·refusing, calling as Asked·calling, questioning as Asked·questioning, batching as Asked·batching, holding as Asked·holding, is_full, asked_first, asked_move, asked_before, asked_opened, about as Asked·about, request_of, asked_after, asked_inside, asked, takes_pay, filed_pay, filed_behind, takes_move, filed_move, takes_line, line_read, filed_line, filed, is_over};

use batch::{BatchLine, Command, Update};
use line::{Record, Word};
use question::{Question, Topic};
use rows::wide;
use table::{Op, Position, Refusal};

// How far the lead has come: no line yet, straight behind `game`, before `go`, after it, inside a batch, or past a refusal that ends the run.
#[derive(Clone, Copy, PartialEq, Eq)]
pub enum Stage {
    Waiting,
    Opened,
    Gathering,
    Playing,
    Batching,
    Over,
}

// What is held from line to line beside the session, the marks and a list of numbers. Before `go`: N, the start state, the count of kinds, and how many numbers of the list are the
// moves'. Inside a batch: how many are its lines'. The marks are lent beside it: here they would be copied at each line.
// Kept: `count` stands beside `stage` and in no variant of it, and functions take a lead and are no methods: contracts, definitions and callers in crates above name them.
#[derive(Clone, Copy)]
pub struct Lead {
    pub stage: Stage,
    pub size: u16,
    pub start: u16,
    pub kinds: u16,
    pub count: u16,
}

// What a line after `go` requests: a change, the begin or the end of a batch, another count of kinds, a question's reply, or nothing that is known there.
#[derive(Clone, Copy)]
pub enum Request {
    Change(Op),
    Begin,
    End,
    Kinds(u16),
    Question(Question),
    Unknown,
}

// What a line asks of the session. The lines of a batch are those held.
// Kept: no `Option<Command>`, which would be no plainer: a load is no absence of a call.
#[derive(Clone, Copy)]
pub enum Ask {
    Load,
    Call(Command),
}

// What is to be done for a line. Only what asks something reaches the session, and only a load or a call may change it.
#[derive(Clone, Copy)]
pub enum Task {
    Nothing,
    Refuse(Refusal),
    Ask(Ask),
    Question(Question),
}

// What is held behind a line, unless the load refuses, and what is to be done.
#[derive(Clone, Copy)]
pub struct Plan {
    pub lead: Lead,
    pub task: Task,
}

// The bits of a kind's eight words.
const BITS: usize = 512;

// The numbers of 65 lines of a batch. Lines behind these are not held: the 65th is refused, whatever it is.
const HELD: u16 = 195;

// What is held before the first line.
pub fn first_lead() -> Lead
    ensures { result ≡ first_lead }
{
    Lead {
        stage: Stage::Waiting,
        size: 0,
        start: 0,
        kinds: 1,
        count: 0,
    }
}

// The lead at another stage.
pub fn staged(stage: Stage, lead: Lead) -> Lead
    ensures { result ≡ Asked·staged stage lead }
{
    Lead { stage, ..lead }
}

// Nothing is to be done, and this is held.
fn no_task(lead: Lead) -> Plan
    ensures { result ≡ no_task lead }
{
    Plan {
        lead,
        task: Task::Nothing,
    }
}

// The line is refused.
fn refusing(stage: Stage, lead: Lead, number: u16) -> Plan
    ensures { result ≡ Asked·refusing stage lead number }
{
    Plan {
        lead: staged(stage, lead),
        task: Task::Refuse(Refusal {
            number,
            position: Position::Alone,
        }),
    }
}

// The first line has to be `game`.
#[tactic(auto, using(crate::proofs::Telling::told), unfolding(crate::specs::Asked::asked_first))]
fn ask_first(lead: Lead, r: Record) -> Plan
    ensures { result ≡ asked_first lead r }
{
    if r.word == Word::Game {
        return no_task(Lead {
            stage: Stage::Opened,
            size: r.first,
            start: r.second,
            ..first_lead()
        });
    }
    refusing(Stage::Over, lead, 1)
}

// Are there 2,048 moves?
#[tactic(auto, unfolding(crate::specs::Asked::is_full))]
fn is_full(lead: Lead) -> bool
    ensures { result ≡ is_full lead }
{
    table::NUMBERS <= wide(lead.count)
}

// A `move` before `go`: "a 2,049th `move` line gets 5 as it is read"
#[tactic(auto, unfolding(crate::specs::Asked::is_full, crate::specs::Asked::asked_move))]
fn ask_move(lead: Lead) -> Plan
    ensures { result ≡ asked_move lead }
{
    if is_full(lead) {
        return refusing(Stage::Over, lead, 5);
    }
    no_task(Lead {
        stage: Stage::Gathering,
        count: lead.count + 2,
        ..lead
    })
}

// Before `go`: `pay` until a `move` came, `move`, `go`.
#[tactic(auto, using(crate::proofs::Telling::told), unfolding(crate::specs::Asked::asked_before))]
fn ask_before(lead: Lead, r: Record) -> Plan
    ensures { result ≡ asked_before lead r }
{
    match r.word {
        Word::Pay if lead.count == 0 => no_task(staged(Stage::Gathering, lead)),
        Word::Move => ask_move(lead),
        Word::Go => Plan {
            lead,
            task: Task::Ask(Ask::Load),
        },
        _ => refusing(Stage::Over, lead, 1),
    }
}

// Straight behind `game`: `kinds`, or what may follow without it.
#[tactic(auto, using(crate::proofs::Telling::told), unfolding(crate::specs::Asked::asked_opened))]
fn ask_opened(lead: Lead, r: Record) -> Plan
    ensures { result ≡ asked_opened lead r }
{
    if r.word == Word::Kinds {
        return no_task(Lead {
            stage: Stage::Gathering,
            kinds: r.first,
            count: 0,
            ..lead
        });
    }
    ask_before(lead, r)
}

// A call is asked of the session.
fn calling(lead: Lead, command: Command) -> Plan
    ensures { result ≡ Asked·calling command lead }
{
    Plan {
        lead,
        task: Task::Ask(Ask::Call(command)),
    }
}

// A question is asked of it.
fn questioning(lead: Lead, question: Question) -> Plan
    ensures { result ≡ Asked·questioning question lead }
{
    Plan {
        lead,
        task: Task::Question(question),
    }
}

// A question about a topic, with the number that goes with it.
fn about(topic: Topic, number: u16) -> Request
    ensures { result ≡ Asked·about topic number }
{
    Request::Question(Question { topic, number })
}

// After `go`: `add` and `cut`, `mark` and `unmark`, `begin` and `end`, `kinds`, `ways`, `short`.
#[tactic(auto, unfolding(crate::specs::Asked::request_of))]
fn request_of(r: Record) -> Request
    ensures { result ≡ request_of r }
{
    let from = r.first;
    let to = r.second;
    match r.word {
        Word::Add => Request::Change(Op::Add { from, to }),
        Word::Cut => Request::Change(Op::Cut { from, to }),
        Word::Mark => Request::Change(Op::Mark {
            state: from,
            kind: to,
        }),
        Word::Unmark => Request::Change(Op::Unmark {
            state: from,
            kind: to,
        }),
        Word::Begin => Request::Begin,
        Word::End => Request::End,
        Word::Kinds => Request::Kinds(from),
        Word::Ways => about(Topic::Ways, from),
        Word::Short => about(Topic::Short, from),
        Word::Game | Word::Pay | Word::Move | Word::Go | Word::Unreadable => Request::Unknown,
    }
}

// The lead inside a batch, with so many numbers of its lines.
fn batching(lead: Lead, count: u16) -> Lead
    ensures { result ≡ Asked·batching lead count }
{
    Lead {
        stage: Stage::Batching,
        count,
        ..lead
    }
}

// A line after `go`, outside a batch.
#[tactic(auto, unfolding(crate::specs::Asked::asked_after))]
fn ask_after(lead: Lead, r: Record) -> Plan
    ensures { result ≡ asked_after lead r }
{
    match request_of(r) {
        Request::Change(op) => calling(lead, Command::Update(Update::Change(op))),
        Request::Begin => no_task(batching(lead, 0)),
        Request::Kinds(kinds) => calling(lead, Command::Kinds(kinds)),
        Request::Question(question) => questioning(lead, question),
        Request::End | Request::Unknown => refusing(Stage::Playing, lead, 1),
    }
}

// A line inside a batch is held, where there is a place for it.
#[tactic(auto, unfolding(crate::specs::Asked::holding))]
fn holding(lead: Lead) -> Plan
    ensures { result ≡ Asked·holding lead }
{
    if lead.count < HELD {
        return no_task(batching(lead, lead.count + 3));
    }
    no_task(lead)
}

// A line inside a batch: `end`, or one that is held.
#[tactic(auto, using(crate::proofs::Telling::told), unfolding(crate::specs::Asked::asked_inside))]
fn ask_inside(lead: Lead, r: Record) -> Plan
    ensures { result ≡ asked_inside lead r }
{
    if r.word == Word::End {
        return calling(staged(Stage::Playing, lead), Command::Update(Update::Batch));
    }
    holding(lead)
}

// Is the line a `move` that is taken?
#[tactic(auto, using(crate::proofs::Telling::told), unfolding(crate::specs::Asked::takes_move))]
fn takes_move(lead: Lead, r: Record) -> bool
    ensures { result ≡ takes_move lead r }
{
    !is_full(lead) && matches!(lead.stage, Stage::Opened | Stage::Gathering) && r.word == Word::Move
}

// Files numbers behind those that the list has already, where it has room.
fn file_behind(numbers: &mut [u16], count: u16, more: &[u16])
    requires { length more.now ≤ 3 }
    ensures { numbers.new ≡ filed_behind numbers.old count more.now }
{
    let at = wide(count);
    let end = at + more.len();
    if end <= numbers.len() {
        numbers[at..end].copy_from_slice(more);
    }
}

// Files the numbers of a `move` that is taken behind those of the moves before it, where the list has room.
#[tactic(auto, unfolding(crate::specs::Asked::filed_move))]
fn file_move(lead: Lead, r: Record, numbers: &mut [u16])
    ensures { numbers.new ≡ filed_move lead r numbers.old }
{
    if takes_move(lead, r) {
        file_behind(numbers, lead.count, &[r.first, r.second]);
    }
}

// Is the line a `pay` that is taken: before `go`, and before any `move`?
#[tactic(auto, using(crate::proofs::Telling::told), unfolding(crate::specs::Asked::takes_pay))]
fn takes_pay(lead: Lead, r: Record) -> bool
    ensures { result ≡ takes_pay lead r }
{
    lead.count == 0 && matches!(lead.stage, Stage::Opened | Stage::Gathering) && r.word == Word::Pay
}

// Sets the mark of a `pay` that is taken, in the words of its kind.
#[tactic(auto, unfolding(crate::specs::Asked::filed_pay))]
fn file_pay(lead: Lead, r: Record, marks: &mut [u64; 32])
    ensures { marks.new ≡ filed_pay lead r marks.old }
{
    if takes_pay(lead, r) {
        marks::set_mark(marks, BITS * wide(look::down(r.second)) + wide(r.first));
    }
}

// Is the line one of a batch that is held?
#[tactic(auto, using(crate::proofs::Telling::told), unfolding(crate::specs::Asked::takes_line))]
fn takes_line(lead: Lead, r: Record) -> bool
    ensures { result ≡ takes_line lead r }
{
    lead.count < HELD && lead.stage == Stage::Batching && r.word != Word::End
}

// The numbers of a line of a batch: those of a change, or of a line that makes none.
// Kept: the zeros are written out and no `Default`, which would be no plainer: it is the 0 in `what` that says that the line makes no change.
#[tactic(auto, unfolding(crate::specs::Asked::line_read))]
fn line_of(r: Record) -> BatchLine
    ensures { result ≡ line_read r }
{
    match request_of(r) {
        Request::Change(op) => batch::line_of(op),
        _ => BatchLine {
            what: 0,
            first: 0,
            second: 0,
        },
    }
}

// Files the numbers of a line that is held behind those of the lines before it, where the list has room.
#[tactic(auto, unfolding(crate::specs::Asked::filed_line))]
fn file_line(lead: Lead, r: Record, numbers: &mut [u16])
    ensures { numbers.new ≡ filed_line lead r numbers.old }
{
    if takes_line(lead, r) {
        let line = line_of(r);
        file_behind(numbers, lead.count, &[line.what, line.first, line.second]);
    }
}

// What a line asks for, and the marks and the numbers behind it.
#[tactic(auto, unfolding(crate::specs::Asked::asked, crate::specs::Asked::filed, crate::specs::Asked::takes_pay, crate::specs::Asked::filed_pay, crate::specs::Asked::takes_move, crate::specs::Asked::filed_move, crate::specs::Asked::takes_line, crate::specs::Asked::filed_line))]
pub fn read(lead: Lead, marks: &mut [u64; 32], numbers: &mut [u16], bytes: &[u8]) -> Plan
    ensures value { result ≡ asked lead (record_of bytes.now) }
    ensures marks_after { marks.new ≡ filed_pay lead (record_of bytes.now) marks.old }
    ensures numbers_after { numbers.new ≡ filed lead (record_of bytes.now) numbers.old }
{
    let r = line::read_record(bytes);
    match lead.stage {
        Stage::Waiting => ask_first(lead, r),
        Stage::Opened => {
            file_pay(lead, r, marks);
            file_move(lead, r, numbers);
            ask_opened(lead, r)
        }
        Stage::Gathering => {
            file_pay(lead, r, marks);
            file_move(lead, r, numbers);
            ask_before(lead, r)
        }
        Stage::Playing => ask_after(lead, r),
        Stage::Batching => {
            file_line(lead, r, numbers);
            ask_inside(lead, r)
        }
        Stage::Over => no_task(lead),
    }
}

// Is the run over?
pub fn is_over(lead: Lead) -> bool
    ensures { result ≡ is_over lead.stage }
{
    lead.stage == Stage::Over
}
