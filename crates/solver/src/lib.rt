// Solves the game of any map and duty: counts by rounds, then plan bytes by the counts.
#![tactic(auto)]

ghost use Rattle.std.specs.Prelude.{◌≡◌, MatchResult};
ghost use Rattle.game.specs.declared.Refusal.TheVariants.{Short};
ghost use Rattle.solver.specs.Solve.{Solves, ShortOf};

mod counting;
mod planning;
mod position;
mod rows;

use counting::count_all;
use game::{Duty, Map, Refusal, position_count};
use planning::plan_all;

// Fills a plan byte and a count for each position, or refuses for want of room and changes nothing.
// The table is two lent buffers and not a list of pairs: the call is to run from C too, where there is no allocator.
pub fn solve<M: Map, D: Duty>(
    map: &M,
    duty: &D,
    plan: &mut [u8],
    count: &mut [u16],
) -> Result<(), Refusal>
    ensures { MatchResult result
        (λ _. Solves (M.graph map.now) (D.rule duty.now)
        plan.old count.old plan.new count.new)
        (λ e. (e ≡ Short) × ShortOf (M.graph map.now) (D.rule duty.now)
        plan.old count.old plan.new count.new) }
{
    let most = usize::from(position_count(map, duty));
    if plan.len() < most || count.len() < most {
        return Err(Refusal::Short);
    }
    let plan = &mut plan[..most];
    let count = &mut count[..most];
    count_all(map, duty, plan, count);
    plan_all(map, duty, count, plan);
    Ok(())
}
