// Steps of the outer search.
ghost use Rattle.std.specs.Prelude.{◌≡◌};
ghost use Rattle.search.specs.declared.Phase.TheVariants.{Outer};
ghost use Rattle.search.specs.Core.{game_in, accepts_at, core_in, placed, left, exhausted, discover as discovered, finished, Roomy, OuterTurn, Advanced};

use crate::{Phase, Records, Trail, Walker};
use look::{Edge, Game, STATES, down, get, plus, put, scan, up};
use rows::wide;

// The target of an edge of the current state's row is discovered.
fn discover(records: &mut Records, trail: &mut Trail, spent: u16, w: Walker, edge: Edge) -> Walker
    ensures { core_in result spent records.new trail.new ≡ discovered (core_in (placed w edge.index) spent records.old trail.old) edge.target }
{
    let t = edge.target;
    put(&mut records.number, t, w.met);
    put(&mut records.parent, t, w.cur);
    put(&mut records.index, t, edge.index);
    put(&mut records.probes, t, plus(w.kept, spent));
    put(&mut records.walk, w.height, t);
    put(&mut trail.depth, t, w.height);
    let height = up(w.height);
    Walker {
        phase: Phase::Outer,
        cur: t,
        next: 0,
        height,
        top: height,
        stem: 0,
        met: up(w.met),
        ..w
    }
}

// The current state leaves the open path, and the search goes on behind the edge by which it was discovered.
pub fn leave(records: &Records, w: Walker) -> Walker
    ensures { result ≡ left records.now.parent records.now.index w }
{
    let height = down(w.height);
    let next = wide(get(&records.index, w.cur)) + 1;
    Walker {
        phase: Phase::Outer,
        cur: get(&records.parent, w.cur),
        next,
        height,
        top: height,
        stem: 0,
        ..w
    }
}

// Is v accepting? Only a state below `size` is.
fn accepts(game: Game, v: u16) -> bool
    ensures { result ≡ accepts_at (game_in game.entry) v }
{
    let Game { words, size, .. } = game;
    v < size && marks::accepts_in(words, wide(v) % STATES)
}

// After the last edge of the current state: a nested search from it where it is accepting. It is marked when it is left.
fn finish(game: Game, records: &Records, w: Walker) -> Walker
    ensures { result ≡ finished (accepts_at (game_in game.entry) w.cur) records.now.parent records.now.index w }
{
    if accepts(game, w.cur) {
        return Walker {
            phase: Phase::Nested,
            next: 0,
            top: w.height,
            stem: 0,
            ..w
        };
    }
    leave(records, w)
}

// The open path is empty: the search is over, and no cycle was found.
fn exhaust(w: Walker) -> Walker
    ensures { result ≡ exhausted w }
{
    Walker {
        phase: Phase::Exhausted,
        height: 0,
        stem: 0,
        ..w
    }
}

// Steps of the outer search: over the edges that lead to discovered states, and one more.
fn outer_step(
    game: Game,
    records: &mut Records,
    trail: &mut Trail,
    spent: &mut u16,
    w: Walker,
) -> Walker
    requires { (w.phase ≡ Outer) × Roomy w records.old.number }
    ensures by_index { Advanced (game_in game.entry) (core_in w spent.old records.old trail.old) (core_in result spent.new records.new trail.new) }
    ensures outer_turn { OuterTurn w records.old.number result records.new.number }
{
    if w.height == 0 {
        return exhaust(w);
    }
    if let Some(edge) = scan(
        game.targets,
        game.layout,
        &records.number,
        spent,
        w.cur,
        w.next,
    ) {
        return discover(records, trail, *spent, w, edge);
    }
    finish(game, records, w)
}

// Steps of the outer search until it stops. They have a loop of their own, so that no turn has to tell the phase first. On any arrays it ends: each turn numbers a state or
// takes one off the open path.
pub fn outer_steps(
    game: Game,
    records: &mut Records,
    trail: &mut Trail,
    spent: &mut u16,
    w: Walker,
) -> Walker
    requires { (w.phase ≡ Outer) × Roomy w records.old.number }
    ensures by_index { Advanced (game_in game.entry) (core_in w spent.old records.old trail.old) (core_in result spent.new records.new trail.new) }
    ensures roomy { Roomy result records.new.number }
{
    let mut q = w;
    loop {
        q = outer_step(game, records, trail, spent, q);
        if q.phase != Phase::Outer {
            return q;
        }
    }
}
