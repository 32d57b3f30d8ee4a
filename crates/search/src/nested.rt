// Steps of the nested search.
ghost use Rattle.std.specs.Prelude.{◌≡◌, List, ℕ, ◌<◌};
ghost use Rattle.look.specs.Numbers.{no_number};
ghost use Rattle.search.specs.declared.Phase.TheVariants.{Nested};
ghost use Rattle.search.specs.Core.{game_of, Deep, core_in, placed, go_back, deepen as deepens, on_open_path, NestedTurn, Advanced};

use crate::outer::leave;
use crate::{Phase, Records, Trail, Walker};
use look::{Edge, Game, down, further, get, put, scan};
use rows::wide;

// Is t on the open path of that height?
fn on_path(records: &Records, trail: &Trail, height: u16, t: u16) -> bool
    ensures { result ≡ on_open_path records.now.walk trail.now.depth height t }
{
    let at = get(&trail.depth, t);
    at < height && get(&records.walk, at) == t
}

// The nested search goes on to t, by an edge of the current state's row.
fn deepen(records: &mut Records, trail: &mut Trail, w: Walker, edge: Edge) -> Walker
    ensures { (spent : ℕ) → core_in result spent records.new trail.new ≡ deepens (core_in (placed w edge.index) spent records.old trail.old) edge.target }
{
    let t = edge.target;
    put(&mut records.stamp, t, w.met);
    put(&mut records.walk, w.top, t);
    put(&mut trail.cursor, down(w.top), edge.index);
    Walker {
        phase: Phase::Nested,
        cur: t,
        next: 0,
        top: further(w.top),
        stem: 0,
        ..w
    }
}

// The nested search goes back, from a state whose edges are all taken. From its first state it ends: that state is marked, and leaves the open path.
// (While it is on the open path, a probe that leads to it has to find it unmarked.)
fn go_back(records: &mut Records, trail: &Trail, w: Walker) -> Walker
    ensures { (spent : ℕ) → core_in result spent records.new trail.now ≡ go_back (core_in w spent records.old trail.now) }
{
    if w.top <= w.height {
        put(&mut records.stamp, w.cur, w.met);
        return leave(records, w);
    }
    let top = down(w.top);
    let at = down(top);
    let next = wide(get(&trail.cursor, at)) + 1;
    Walker {
        phase: Phase::Nested,
        cur: get(&records.walk, at),
        next,
        top,
        stem: 0,
        ..w
    }
}

// Steps of the nested search: over the edges that lead to marked states, and one or two more.
fn nested_step(
    game: Game,
    records: &mut Records,
    trail: &mut Trail,
    spent: &mut u16,
    w: Walker,
) -> Walker
    requires { (w.phase ≡ Nested) × Deep w × (w.met < no_number) }
    ensures by_index { (words : List ℕ) (size : ℕ) → Advanced (game_of game.entry.targets.now game.entry.layout.now words size) (core_in w spent.old records.old trail.old) (core_in result spent.new records.new trail.new) }
    ensures nested_turn { NestedTurn w records.old.stamp result records.new.stamp }
    ensures number_kept { records.new.number ≡ records.old.number }
{
    if let Some(edge) = scan(
        game.targets,
        game.layout,
        &records.stamp,
        spent,
        w.cur,
        w.next,
    ) {
        if on_path(records, trail, w.height, edge.target) {
            return Walker {
                phase: Phase::Found,
                next: 0,
                stem: get(&trail.depth, edge.target),
                ..w
            };
        }
        return deepen(records, trail, w, edge);
    }
    go_back(records, trail, w)
}

// Steps of the nested search until it stops. On any arrays it ends: each turn marks a state or goes back from one.
pub fn nested_steps(
    game: Game,
    records: &mut Records,
    trail: &mut Trail,
    spent: &mut u16,
    w: Walker,
) -> Walker
    requires { (w.phase ≡ Nested) × Deep w × (w.met < no_number) }
    ensures by_index { (words : List ℕ) (size : ℕ) → Advanced (game_of game.entry.targets.now game.entry.layout.now words size) (core_in w spent.old records.old trail.old) (core_in result spent.new records.new trail.new) }
    ensures met_value { result.met ≡ w.met }
    ensures number_kept { records.new.number ≡ records.old.number }
{
    let mut q = w;
    loop {
        q = nested_step(game, records, trail, spent, q);
        if q.phase != Phase::Nested {
            return q;
        }
    }
}
