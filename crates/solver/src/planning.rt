// The plan bytes, by finished counts.
ghost use Rattle.std.specs.Prelude.{◌≡◌, ◌<◌, ◌≤◌, length};
ghost use Rattle.game.specs.Rounds.{positions};
ghost use Rattle.solver.specs.Rounds.{Finished};
ghost use Rattle.solver.specs.Solve.{FitPlan, FitsPlan};

use crate::position::Position;
use crate::rows::fill;
use game::{Duty, Map};

// A plan byte that names no way. A lent table holds bytes, so None is told by a number there.
const NO_WAY: u8 = 8;

// The plan byte that finished counts ask for at a position. It takes a position's parts, so that the closure
// below is one call and needs no clauses: one that made the Position itself would have to state these.
fn plan_byte<M: Map, D: Duty>(map: &M, duty: &D, count: &[u16], place: u8, code: u8) -> u8
    requires room { positions (M.graph map.now) (D.rule duty.now) ≤ length count.now }
    requires on { place < (M.graph map.now).size }
    requires coded { code < (D.rule duty.now).codes }
    requires given { Finished (M.graph map.now) (D.rule duty.now) count.now }
    ensures { FitPlan (M.graph map.now) (D.rule duty.now) count.now place code result }
{
    Position::new(map, duty, count, place, code)
        .planned()
        .unwrap_or(NO_WAY)
}

// The plan bytes of all positions.
pub(crate) fn plan_all<M: Map, D: Duty>(map: &M, duty: &D, count: &[u16], plan: &mut [u8])
    requires plans { length plan.old ≡ positions (M.graph map.now) (D.rule duty.now) }
    requires counts { length count.now ≡ positions (M.graph map.now) (D.rule duty.now) }
    requires given { Finished (M.graph map.now) (D.rule duty.now) count.now }
    ensures { FitsPlan (M.graph map.now) (D.rule duty.now) count.now plan.new }
{
    fill(
        map.size(),
        duty.codes(),
        plan,
        |place, code, _| plan_byte(map, duty, count, place, code),
    );
}
