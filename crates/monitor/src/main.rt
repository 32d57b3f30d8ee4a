// The box program: lines from standard input, answers on standard output, each as soon as its line is read.
#![tactic(auto)]

use lead::Task;

// Kept: one function for the end of this loop and of the desk program's makes this one slower by 7 to 8 % (docs/DECISIONS.md, 94).
// Kept: a struct of the six arrays would be no plainer: it would be taken apart at each call, which borrows two or three of them.
fn main(rt: HostRuntime) {
    let input = rt.stdin();
    let output = rt.stdout();
    let mut marks: [u64; 32] = [0; 32];
    let mut numbers: [u16; table::NUMBERS] = [0; table::NUMBERS];
    let mut walk: [u16; watch::WALK] = [0; watch::WALK];
    let mut lines: [u8; watch::LINES] = [0; watch::LINES];
    let mut buf: [u8; console::CHUNK] = [0; console::CHUNK];
    let mut held: [u8; console::HELD] = [0; console::HELD];
    let mut lead = lead::first_lead();
    let mut c = watch::no_session();
    let mut r = console::begin();
    loop {
        r = console::next_line(input, &mut buf, &mut held, r);
        if !r.has_line() {
            return;
        }
        let line = &held[..r.len];
        let plan = lead::read(lead, &mut marks, &mut numbers, line);
        if let Task::Ask(ask) = plan.task {
            c = watch::serve(c.session, lead, ask, &marks, &numbers, &mut walk);
        }
        let reply = watch::reply_to(c.session, plan.task);
        let w = watch::write(plan, &marks, c.answer, reply, &walk, &mut lines);
        if !console::print(
            output,
            line,
            lead,
            &marks,
            c.answer,
            reply,
            &walk,
            &lines[..w.len],
        ) {
            return;
        }
        lead = w.lead;
        if lead::is_over(lead) || !r.is_line() {
            return;
        }
        r = r.onward();
    }
}
