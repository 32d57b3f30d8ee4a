// The search, resumed, to its end.
ghost use Rattle.std.specs.Prelude.{◌≡◌};
ghost use Rattle.search.specs.Core.{game_in, Deep, Roomy, core_in, Advanced, Ran, over as is_over, rewound_in, result_in};

use crate::nested::nested_steps;
use crate::outer::outer_steps;
use crate::rewind::{climb, forget_above, retrace};
use crate::{LONGEST, Phase, Records, Trail, Walker};
use look::{Game, get, up};

// A phase: steps of the outer or of the nested search, until that stops; none once the search is over.
fn one_phase(
    game: Game,
    records: &mut Records,
    trail: &mut Trail,
    spent: &mut u16,
    w: Walker,
) -> Walker
    requires { Deep w × Roomy w records.old.number }
    ensures advanced { Advanced (game_in game.entry) (core_in w spent.old records.old trail.old) (core_in result spent.new records.new trail.new) }
    ensures roomy { Roomy result records.new.number }
{
    match w.phase {
        Phase::Outer => outer_steps(game, records, trail, spent, w),
        Phase::Nested => nested_steps(game, records, trail, spent, w),
        Phase::Exhausted | Phase::Found => w,
    }
}

// Is the search over?
fn over(phase: Phase) -> bool
    ensures { result ≡ is_over phase }
{
    matches!(phase, Phase::Exhausted | Phase::Found)
}

// So many phases, unless the search is over before. Each phase is a step or more.
fn run(
    game: Game,
    records: &mut Records,
    trail: &mut Trail,
    spent: &mut u16,
    w: Walker,
    phases: u16,
) -> Walker
    requires { Deep w × Roomy w records.old.number }
    ensures { Ran (game_in game.entry) phases (core_in w spent.old records.old trail.old) (result_in result spent.new records.new) }
{
    let mut q = w;
    for _ in 0..phases {
        if over(q.phase) {
            return q;
        }
        q = one_phase(game, records, trail, spent, q);
    }
    q
}

// The search from the discovery of s on, for so many phases: what was discovered or marked later is forgotten, and the open path is the chain of
// parents of s. No state is `states` or more, and none of `size` or more is accepting. What stays open, where the search is not over by then, as only that of a forged session is: how many
// steps are made. At least one is made for each phase.
pub fn resume(
    game: Game,
    records: &mut Records,
    spent: &mut u16,
    states: u16,
    start: u16,
    s: u16,
    phases: u16,
) -> Walker
    ensures { Ran (game_in game.entry) phases (rewound_in states start s spent.old records.old) (result_in result spent.new records.new) }
{
    let limit = get(&records.number, s) % LONGEST;
    forget_above(&mut records.number, states, limit);
    forget_above(&mut records.stamp, states, limit);
    let height = climb(&records.parent, start, s);
    let mut trail = Trail {
        depth: [0; 512],
        cursor: [0; 512],
    };
    retrace(records, &mut trail, s, height);
    let w = Walker {
        phase: Phase::Outer,
        cur: s,
        next: 0,
        height,
        top: height,
        stem: 0,
        met: up(limit),
        kept: get(&records.probes, s),
    };
    run(game, records, &mut trail, spent, w, phases)
}
