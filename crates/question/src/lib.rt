// Questions on a session: what is asked, what is replied, and how a reply is read off the arrays of a table. A question changes nothing.
#![tactic(auto)]

ghost use Rattle.std.specs.Prelude.{◌≡◌};
ghost use Rattle.question.specs.Replies.{ways_in, ShortIn};

use rows::Rows;

// What is asked about: the moves that leave and enter a state, or the shortest round.
#[derive(Clone, Copy)]
pub enum Topic {
    Ways,
    Short,
}

// A question: what is asked about, and the number that goes with it. Of `Ways` it is the state, of `Short` the budget.
#[derive(Clone, Copy)]
pub struct Question {
    pub topic: Topic,
    pub number: u16,
}

// What is replied: the number of a refusal; of `Ways`, the state and the counts of moves that leave and enter it; of `Short`, the length of the best round known and the smallest that
// is not ruled out, or that there is no round.
#[derive(Clone, Copy)]
pub enum Reply {
    Refused(u16),
    Degrees {
        state: u16,
        leaving: u16,
        entering: u16,
    },
    Shortest {
        best: u16,
        least: u16,
    },
    NoRound,
}

// How many moves leave and enter a state: the one count is between the ends of its row, the other is held.
pub fn ways(size: u16, starts: &[u16; 513], indegree: &[u16; 512], state: u16) -> Reply
    ensures { result ≡ ways_in state size starts.now indegree.now }
{
    if size <= state {
        return Reply::Refused(6);
    }
    let leaving = rows::degree(starts, state);
    let entering = look::get(indegree, state);
    Reply::Degrees {
        state,
        leaving,
        entering,
    }
}

// The shortest round within a budget of looks, where the present one has so many moves, 0 if there is none. Where there is no game, nothing is said of its rounds.
pub fn short(
    size: u16,
    kinds: u16,
    start: u16,
    present: u16,
    rows: &Rows,
    words: &[u64; 8],
    budget: u16,
) -> Reply
    ensures { ShortIn budget size kinds start present rows.now.targets rows.now.starts words.now result }
{
    if 1 < kinds {
        return Reply::Refused(17);
    }
    if size == 0 {
        return Reply::Refused(2);
    }
    if present == 0 {
        return Reply::NoRound;
    }
    let n = shortest::shorten(rows, words, size, start, present, budget);
    Reply::Shortest {
        best: n.best,
        least: n.least,
    }
}
