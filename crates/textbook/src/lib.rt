// Nested depth-first search as it is taught, for a table without history. One function visits a state, the other explores its edges (its moves), and each calls the other.
// The nested (inner) search is made in the same manner. Every function is safe, and ends, for any contents of the arrays.
#![tactic(auto)]

ghost use Rattle.std.specs.Prelude.{◌≡◌, true, false, ◌<◌};
ghost use Rattle.plain.specs.Table.{by_kind};
ghost use Rattle.look.specs.Scan.{lifted};
ghost use Rattle.layers.specs.Layout.{layered};
ghost use Rattle.verdict.specs.Answers.{LoadAnswered};
ghost use Rattle.textbook.specs.Search.{Reads, ReadsAll, ReadsGame, Visits, Explores, Begun};

use look::Game;
use rows::{Rows, wide};
use table::{Position, Trial};
use verdict::Answer;

// The walk of a round that was found: it has so many states, of which so many are the stem.
#[derive(Clone, Copy)]
struct Walk {
    stem: u16,
    length: u16,
}

// What the search writes on.
#[derive(Clone, Copy)]
struct Board {
    // the sets of the states that are discovered, and marked
    met: [bool; 512],
    marked: [bool; 512],
    // the open path, and behind it the path of the nested search
    walk: [u16; 512],
    // the looks
    spent: u16,
}

// The state at which a target lies, raised by the base of its row.
fn lift(target: u16, base: usize) -> u16
    requires { base < 65536 }
    ensures { result ≡ lifted base target }
{
    ((wide(target) + base) % look::STATES) as u16
}

// THE OUTER SEARCH visits a state: it is discovered (met), and its edges are explored; after the last of them, if it is accepting (pays), a nested search starts from it.
// On the open path it has that place.
#[cycle(explore_visit)]
fn visit(game: Game, board: &mut Board, v: u16, place: u16) -> Option<Walk>
    ensures { Visits (ReadsGame game.entry) false v 0 place board.old board.new result }
{
    look::insert(&mut board.met, v);
    look::put(&mut board.walk, place, v);
    let height = look::up(place);
    let r = explore(game, board, v, height);
    if r.is_some() {
        return r;
    }
    let Game { words, size, .. } = game;
    if v < size && marks::accepts_in(words, wide(v)) {
        return nested_visit(game, board, v, height, place);
    }
    r
}

// Its edges are taken oldest first, each with one look. A target that is not discovered is visited.
#[cycle(explore_visit)]
fn explore(game: Game, board: &mut Board, v: u16, place: u16) -> Option<Walk>
    ensures { Explores (ReadsGame game.entry) false v 0 place board.old board.new result }
{
    let row = look::stretch_of(game.layout, v);
    for e in 0..row.count {
        let t = lift(
            look::look(game.targets, &mut board.spent, row.from + e),
            row.base,
        );
        if !look::contains(&board.met, t) {
            let r = visit(game, board, t, place);
            if r.is_some() {
                return r;
            }
        }
    }
    None
}

// THE NESTED SEARCH visits a state: it is marked, and its edges are explored. The open path is so many states high; behind it the walk goes on with the path of the nested
// search, on which the state has that place.
#[cycle(nested_explore_nested_visit)]
fn nested_visit(game: Game, board: &mut Board, v: u16, height: u16, place: u16) -> Option<Walk>
    ensures visits { Visits (Reads game.entry.targets.now game.entry.layout.now) true v height place board.old board.new result }
    ensures met_kept { board.new.met ≡ board.old.met }
{
    look::insert(&mut board.marked, v);
    look::put(&mut board.walk, place, v);
    let next = look::up(place);
    nested_explore(game, board, v, height, next)
}

// Its edges are taken oldest first, each with one look. A target on the open path closes a round, and everything stops; one that is unmarked is visited.
#[cycle(nested_explore_nested_visit)]
fn nested_explore(game: Game, board: &mut Board, v: u16, height: u16, place: u16) -> Option<Walk>
    ensures explores { Explores (Reads game.entry.targets.now game.entry.layout.now) true v height place board.old board.new result }
    ensures met_kept { board.new.met ≡ board.old.met }
{
    let row = look::stretch_of(game.layout, v);
    for e in 0..row.count {
        let t = lift(
            look::look(game.targets, &mut board.spent, row.from + e),
            row.base,
        );
        let stem = look::find(&board.walk, height, t);
        if stem < height {
            return Some(Walk {
                stem,
                length: place,
            });
        }
        if !look::contains(&board.marked, t) {
            let r = nested_visit(game, board, t, height, place);
            if r.is_some() {
                return r;
            }
        }
    }
    None
}

// Searches the layers of a game from its start state: their rows are laid, and with no state in a set the start state is visited.
fn visit_start(
    rows: &Rows,
    size: u16,
    above: u16,
    words: &[u64; 8],
    board: &mut Board,
    start: u16,
) -> Option<Walk>
    ensures { Begun (ReadsAll rows.now.targets (layered size above rows.now.starts words.now) size words.now) start board.old.walk board.old.spent board.new.walk board.new.spent result }
{
    let layout = layers::lay(&rows.starts, words, size, above);
    board.met = [false; 512];
    board.marked = [false; 512];
    let game = Game {
        targets: &rows.targets,
        layout: &layout,
        words,
        size,
    };
    visit(game, board, start, 0)
}

// Searches a game: the count of states, the start state, the count of kinds, the paying words of each kind, the moves as a list of numbers, and the list lent for the walk.
// It is answered as a load of it is.
pub fn search(
    size: u16,
    start: u16,
    kinds: u16,
    marks: [u64; 32],
    numbers: &[u16],
    lent: &mut [u16],
) -> Answer
    ensures { LoadAnswered (record { size = size; start = start; kinds = kinds; marks = by_kind marks; numbers = numbers.now }) lent.old result lent.new }
{
    let mut rows = Rows {
        starts: [0; 513],
        targets: [0; 2048],
    };
    let trial = table::load_trial(size, start, kinds, &marks, numbers, &mut rows, lent.len());
    if let Trial::Refused(n) = trial {
        return verdict::refused(n, Position::Alone);
    }
    let words = layers::pack(&marks, size, kinds);
    let above = look::down(kinds);
    let mut board = Board {
        met: [false; 512],
        marked: [false; 512],
        walk: [0; 512],
        spent: 0,
    };
    let none = Walk { stem: 0, length: 0 };
    let walk = visit_start(&rows, size, above, &words, &mut board, start).unwrap_or(none);
    verdict::tell(
        board.spent,
        0,
        walk.stem,
        walk.length,
        size,
        above,
        &board.walk,
        lent,
    )
}
