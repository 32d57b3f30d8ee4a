// The program for the examiner's desk: a game on standard input, up to `go`, is answered by the textbook search as the box answers a load. Then it ends.
#![tactic(auto)]

ghost use Rattle.std.specs.Prelude.{◌≡◌};
ghost use Rattle.verdict.specs.Answers.{LoadAnswered};
ghost use Rattle.watch.specs.Model.{gathered};
ghost use Rattle.desk.specs.Desk.{is_read};

use lead::{Lead, Stage, Task};
use question::Reply;
use rows::wide;
use table::Position;
use verdict::Answer;

// Is the game read whole, or refused?
fn is_read(lead: Lead) -> bool
    ensures { result ≡ is_read lead.stage }
{
    matches!(lead.stage, Stage::Playing | Stage::Batching | Stage::Over)
}

// The textbook search of what was gathered.
fn search(lead: Lead, marks: &[u64; 32], numbers: &[u16], walk: &mut [u16]) -> Answer
    ensures { LoadAnswered (gathered lead marks.now numbers.now) walk.old result walk.new }
{
    let n = wide(lead.count).min(numbers.len());
    textbook::search(
        lead.size,
        lead.start,
        lead.kinds,
        *marks,
        &numbers[..n],
        walk,
    )
}

// Until `go` no line asks for an answer, and none for a reply: those held before it are never told.
fn main(rt: HostRuntime) {
    let input = rt.stdin();
    let output = rt.stdout();
    let mut marks: [u64; 32] = [0; 32];
    let mut numbers: [u16; table::NUMBERS] = [0; table::NUMBERS];
    let mut walk: [u16; watch::WALK] = [0; watch::WALK];
    let mut lines: [u8; watch::LINES] = [0; watch::LINES];
    let mut buf: [u8; console::CHUNK] = [0; console::CHUNK];
    let mut held: [u8; console::HELD] = [0; console::HELD];
    let mut lead = lead::first_lead();
    let mut answer = verdict::refused(1, Position::Alone);
    let mut r = console::begin();
    loop {
        r = console::next_line(input, &mut buf, &mut held, r);
        if !r.has_line() {
            return;
        }
        let line = &held[..r.len];
        let plan = lead::read(lead, &mut marks, &mut numbers, line);
        if let Task::Ask(ask) = plan.task {
            answer = search(lead, &marks, &numbers, &mut walk);
        }
        let reply = Reply::Refused(0);
        let w = watch::write(plan, &marks, answer, reply, &walk, &mut lines);
        if !console::print(
            output,
            line,
            lead,
            &marks,
            answer,
            reply,
            &walk,
            &lines[..w.len],
        ) {
            return;
        }
        lead = w.lead;
        if is_read(lead) || !r.is_line() {
            return;
        }
        r = r.onward();
    }
}
