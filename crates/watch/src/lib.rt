// Lines in, lines out: what the session answers to what a line asks for, and the lines that tell it.
#![tactic(auto)]

ghost use Rattle.std.specs.Prelude.{◌≡◌, ◌∷◌, [], ◌≤◌, min, length, take};
ghost use Rattle.answer.specs.Bytes.{Put};
ghost use Rattle.answer.specs.Rendering.{render};
ghost use Rattle.plain.specs.Machine.{no_line};
ghost use Rattle.verdict.specs.Answers.{shown, refusal_of};
ghost use Rattle.session.specs.Model.{no_game};
ghost use Rattle.question.specs.Replies.{reply_shown};
ghost use Rattle.watch.specs.Model.{Serves, Replied, game_most, lines_most, lines_for, lines_of_load, lead_loaded, lead_for, Laid, Writes, fits};
ghost use Rattle.watch.specs.Text.{room, whole_lines, counted, output_of, output_most, Fitted, Watched};

use lead::{Ask, Lead, Plan, Stage, Task};
use question::Reply;
use session::{Outcome, Session};
use table::{Position, Refusal};
use verdict::Answer;

// "An input of more than 4,294,967,295 bytes counts as ending behind the last newline among these."
pub const LIMIT: usize = 4294967295;

// "It uses at most the first 65,536 bytes of the output"
const OUTPUT: usize = 65536;

// The box's own list for the walk has an entry for each of 512 states.
pub const WALK: usize = 512;

// The lines that tell an answer have no more bytes: `game` has 23 at most, and a round 30 and 6 for each of 512 entries.
pub const LINES: usize = 3200;

// The lengths of a first line and of all.
#[derive(Clone, Copy)]
struct LineLengths {
    first: usize,
    len: usize,
}

// What is held behind a line, and the lengths of its first output line and of all.
// Kept: callers above read the two lengths, and a LineLengths inside would only lengthen their names.
#[derive(Clone, Copy)]
pub struct Written {
    pub lead: Lead,
    pub first: usize,
    pub len: usize,
}

// What stands in place of a session before the first load: a load of nothing, which is refused.
pub fn no_session() -> Outcome
    ensures { (result.answer ≡ Answer.Refused (record { number = 2; position = Position.Alone })) × (result.session ≡ no_game) }
{
    session::load(0, 0, 1, [0; 32], &[], &mut [])
}

// What the session answers to what is asked of it.
pub fn serve(
    s: Session,
    lead: Lead,
    ask: Ask,
    marks: &[u64; 32],
    numbers: &[u16],
    walk: &mut [u16],
) -> Outcome
    ensures { Serves ask lead marks.now numbers.now s walk.old result walk.new }
{
    let n = usize::from(lead.count).min(numbers.len());
    match ask {
        Ask::Load => session::load(
            lead.size,
            lead.start,
            lead.kinds,
            *marks,
            &numbers[..n],
            walk,
        ),
        Ask::Call(command) => session::update(s, command, &numbers[..n], walk),
    }
}

// What the session replies, where a question is asked of it.
// Kept: with an Option, `write` would have to say what it tells of a question without a reply, which no caller can make.
pub fn reply_to(s: Session, task: Task) -> Reply
    ensures { Replied task s result }
{
    match task {
        Task::Question(question) => session::ask(s, question),
        _ => Reply::Refused(0),
    }
}

// Puts the line of a refusal at a place.
#[tactic(auto, using(crate::proofs::Writing::line_lengths))]
fn put_refusal(out: &mut [u8], at: usize, refusal: Refusal) -> usize
    requires { (at ≤ game_most) × (lines_most ≤ length out.old) }
    ensures { Put out.old at (render (no_line (refusal_of refusal))) out.new result }
{
    match refusal.position {
        Position::Alone => answer::put_no(out, at, refusal.number),
        Position::Line(i) => answer::put_no_at(out, at, refusal.number, i),
    }
}

// Puts the line of an answer at a place.
#[tactic(auto, using(crate::proofs::Writing::line_lengths), unfolding(verdict::specs::Answers::shown))]
fn put_answer(out: &mut [u8], at: usize, answer: Answer, walk: &[u16]) -> usize
    requires { (length walk.now ≤ room) × (at ≤ game_most) × (lines_most ≤ length out.old) }
    ensures { Put out.old at (render (shown answer walk.now)) out.new result }
{
    match answer {
        Answer::Refused(refusal) => put_refusal(out, at, refusal),
        Answer::Clear { spent, kept } => answer::put_none(out, at, spent, kept),
        Answer::Round {
            spent,
            kept,
            stem,
            cycle,
        } => {
            let n = (usize::from(stem) + usize::from(cycle)).min(walk.len());
            answer::put_round(out, at, spent, kept, stem, cycle, &walk[..n])
        }
    }
}

// The line of an answer at the head of a buffer.
fn put_one(answer: Answer, walk: &[u16], out: &mut [u8]) -> LineLengths
    requires { (length walk.now ≤ room) × (lines_most ≤ length out.old) }
    ensures { Laid (shown answer walk.now ∷ []) out.old out.new result.first result.len }
{
    let n = put_answer(out, 0, answer, walk);
    LineLengths { first: n, len: n }
}

// Puts the line of a reply at the head of a buffer.
#[tactic(auto, using(crate::proofs::Writing::line_lengths))]
fn put_reply(out: &mut [u8], reply: Reply) -> usize
    requires { lines_most ≤ length out.old }
    ensures { Put out.old 0 (render (reply_shown reply)) out.new result }
{
    match reply {
        Reply::Refused(number) => answer::put_no(out, 0, number),
        Reply::Degrees {
            state,
            leaving,
            entering,
        } => answer::put_ways(out, 0, state, leaving, entering),
        Reply::Shortest { best, least } => answer::put_short(out, 0, best, least),
        Reply::NoRound => answer::put_no_round(out, 0),
    }
}

// The lines of a load: `game` and the answer, or the refusal.
#[tactic(auto, using(crate::proofs::Writing::line_lengths))]
fn put_load(
    lead: Lead,
    marks: &[u64; 32],
    answer: Answer,
    walk: &[u16],
    out: &mut [u8],
) -> LineLengths
    requires { (length walk.now ≤ room) × (lines_most ≤ length out.old) }
    ensures { Laid (lines_of_load lead marks.now answer walk.now) out.old out.new result.first result.len }
{
    if verdict::is_refused(answer) {
        return put_one(answer, walk, out);
    }
    let paying = marks::count(*marks) as u16;
    let n = answer::put_game(out, 0, lead.size, lead.count / 2, paying);
    let m = put_answer(out, n, answer, walk);
    LineLengths { first: n, len: m }
}

// The lines that tell what came of a line.
// Kept: a clause on the buffer and no `&mut [u8; LINES]`, here and in what it calls: in `write` no fact gives the array's length behind the call.
fn put_lines(
    plan: Plan,
    marks: &[u64; 32],
    answer: Answer,
    reply: Reply,
    walk: &[u16],
    out: &mut [u8],
) -> LineLengths
    requires { (length walk.now ≤ room) × (lines_most ≤ length out.old) }
    ensures { Laid (lines_for plan.task plan.lead marks.now answer reply walk.now) out.old out.new result.first result.len }
{
    match plan.task {
        Task::Nothing => LineLengths { first: 0, len: 0 },
        Task::Refuse(refusal) => put_one(Answer::Refused(refusal), walk, out),
        Task::Ask(Ask::Load) => put_load(plan.lead, marks, answer, walk, out),
        Task::Ask(Ask::Call(_)) => put_one(answer, walk, out),
        Task::Question(_) => {
            let n = put_reply(out, reply);
            LineLengths { first: n, len: n }
        }
    }
}

// What is held behind a load: where it is refused, the run is over.
fn lead_loaded(lead: Lead, answer: Answer) -> Lead
    ensures { result ≡ lead_loaded lead answer }
{
    let stage = if verdict::is_refused(answer) {
        Stage::Over
    } else {
        Stage::Playing
    };
    Lead { stage, ..lead }
}

// What is held behind a line.
fn lead_behind(plan: Plan, answer: Answer) -> Lead
    ensures { result ≡ lead_for plan.task plan.lead answer }
{
    match plan.task {
        Task::Ask(Ask::Load) => lead_loaded(plan.lead, answer),
        _ => plan.lead,
    }
}

// The lines that tell what came of a line, at the head of a buffer, and what is held behind it. Where the buffer is shorter than LINES bytes, or the walk
// longer than WALK entries, no line is told.
pub fn write(
    plan: Plan,
    marks: &[u64; 32],
    answer: Answer,
    reply: Reply,
    walk: &[u16],
    out: &mut [u8],
) -> Written
    ensures { Writes plan marks.now answer reply walk.now out.old out.new result }
{
    let lead = lead_behind(plan, answer);
    if walk.len() <= WALK && LINES <= out.len() {
        let LineLengths { first, len } = put_lines(plan, marks, answer, reply, walk, out);
        Written { lead, first, len }
    } else {
        Written {
            lead,
            first: 0,
            len: 0,
        }
    }
}

// How many bytes of at most two lines fit whole into the space.
#[tactic(auto, unfolding(crate::specs::Model::fits))]
fn fitting(space: usize, first: usize, len: usize) -> usize
    ensures { result ≡ fits space first len }
{
    if len <= space {
        len
    } else if first <= space {
        first
    } else {
        0
    }
}

// All lines of a text that is within the limit, and their answers in the output as far as they fit.
// Kept: `split` gives an empty line behind a last newline, where the text has none, and `split_inclusive` each line with its newline: neither loop is plainer.
fn watch_text(text: &[u8], out: &mut [u8], space: usize) -> u64
    requires { (space ≤ length out.old) × (space ≤ output_most) }
    ensures { Fitted (output_of text.now) space out.old out.new result }
{
    let mut marks: [u64; 32] = [0; 32];
    let mut numbers: [u16; table::NUMBERS] = [0; table::NUMBERS];
    let mut walk: [u16; WALK] = [0; WALK];
    let mut lines: [u8; LINES] = [0; LINES];
    let mut lead = lead::first_lead();
    let mut c = no_session();
    let mut from: usize = 0;
    let mut at: usize = 0;
    while from < text.len() {
        let end = line::end_of(text, from, line::NEWLINE);
        let plan = lead::read(lead, &mut marks, &mut numbers, &text[from..end]);
        if let Task::Ask(ask) = plan.task {
            c = serve(c.session, lead, ask, &marks, &numbers, &mut walk);
        }
        let reply = reply_to(c.session, plan.task);
        let w = write(plan, &marks, c.answer, reply, &walk, &mut lines);
        let n = fitting(space - at, w.first, w.len);
        at = answer::put(out, at, &lines[..n]);
        if n < w.len {
            // Kept: the C interface: one number tells the bytes and whether a line did not fit.
            return 2 * (at as u64) + 1;
        }
        lead = w.lead;
        if lead::is_over(lead) {
            return 2 * (at as u64);
        }
        from = end + 1;
    }
    2 * (at as u64)
}

// How much of a text its whole lines take: up to and with its last newline.
fn whole_end(text: &[u8]) -> usize
    ensures { (result ≤ length text.now) × (take result text.now ≡ whole_lines text.now) }
{
    match text.iter().rposition(|&b| b == line::NEWLINE) {
        Some(last) => last + 1,
        None => 0,
    }
}

// How much of a text counts: all of it, or, above the limit, up to and with the last newline within it.
fn counted_end(text: &[u8]) -> usize
    ensures { (result ≤ length text.now) × (take result text.now ≡ counted text.now) }
{
    if text.len() <= LIMIT {
        text.len()
    } else {
        whole_end(&text[..LIMIT])
    }
}

// The whole watch on a text: its output lines as far as they fit whole into the first 65,536 bytes of out. It returns twice the bytes
// written, and 1 more where a line did not fit.
#[tactic(auto, unfolding(crate::specs::Text::output))]
pub fn free_round_watch(text: &[u8], out: &mut [u8]) -> u64
    ensures { Watched text.now out.old out.new result }
{
    let end = counted_end(text);
    watch_text(&text[..end], out, out.len().min(OUTPUT))
}
