// The counts, by rounds.
ghost use Rattle.std.specs.Prelude.{◌≡◌, ℕ, ◌+◌, ◌<◌, ◌≤◌, true, false, length, slice_index};
ghost use Rattle.game.specs.Rounds.{positions, Quiet};
ghost use Rattle.solver.specs.Rounds.{flag, settled, is_due, Counts, Finished};

use crate::position::Position;
use crate::rows::{fill, index};
use game::{Duty, Map, position_count};

// 1 if the next round counts a position, and else 0. It takes a position's parts, for the reason at planning's plan_byte.
fn flag<M: Map, D: Duty>(map: &M, duty: &D, count: &[u16], place: u8, code: u8) -> u8
    requires room { positions (M.graph map.now) (D.rule duty.now) ≤ length count.now }
    requires on { place < (M.graph map.now).size }
    requires coded { code < (D.rule duty.now).codes }
    ensures { result ≡ flag (is_due (M.graph map.now) (D.rule duty.now) count.now place code) }
{
    u8::from(Position::new(map, duty, count, place, code).is_due())
}

// What a count is after round r: the flagged ones are given r.
fn settled(r: u16, flag: u8, n: u16) -> u16
    ensures { result ≡ settled r flag n }
{
    if flag == 1 { r } else { n }
}

// One round after those done, and whether it gave anything. First every position that is due is flagged by 1, by the counts
// as they stand, and the others by 0; then what is flagged is given the round's number. So no round reads a count that it
// has given. The plan buffer holds the flags, since no plan is written yet. The two tables are no struct: each function that
// takes a struct of lent buffers has to promise that it holds the same buffers after, which is more to say than two lengths.
fn count_round<M: Map, D: Duty>(
    map: &M,
    duty: &D,
    done: u16,
    plan: &mut [u8],
    count: &mut [u16],
) -> bool
    requires few { done < 31872 }
    requires plans { length plan.old ≡ positions (M.graph map.now) (D.rule duty.now) }
    requires counts { length count.old ≡ positions (M.graph map.now) (D.rule duty.now) }
    requires stand { Counts (M.graph map.now) (D.rule duty.now) done count.old }
    ensures given { Counts (M.graph map.now) (D.rule duty.now) (done + 1) count.new }
    ensures quiet { result ≡ false → Quiet (M.graph map.now) (D.rule duty.now) done }
    ensures loud { result ≡ true → Quiet (M.graph map.now) (D.rule duty.now) done → ⊥ }
{
    let places = map.size();
    let codes = duty.codes();
    let before = &*count;
    fill(
        places,
        codes,
        plan,
        |place, code, _| flag(map, duty, before, place, code),
    );
    let flags = &*plan;
    fill(
        places,
        codes,
        count,
        |place, code, n| settled(done + 1, flags[index(codes, place, code)], n),
    );
    flags.contains(&1)
}

// Takes the counts off all entries.
fn clear(count: &mut [u16])
    ensures none { (k : ℕ) → k < length count.old → slice_index count.new k ≡ 0 }
    ensures long { length count.new ≡ length count.old }
{
    count.fill(0);
}

// The counts, by rounds up to the first that gives nothing. The loop counts rounds, and no index: each round writes
// its number.
#[tactic(auto, using(crate::proofs::Round::given_none))]
pub(crate) fn count_all<M: Map, D: Duty>(map: &M, duty: &D, plan: &mut [u8], count: &mut [u16])
    requires plans { length plan.old ≡ positions (M.graph map.now) (D.rule duty.now) }
    requires counts { length count.old ≡ positions (M.graph map.now) (D.rule duty.now) }
    ensures { Finished (M.graph map.now) (D.rule duty.now) count.new }
{
    clear(count);
    for done in 0..position_count(map, duty) {
        if !count_round(map, duty, done, plan, count) {
            return;
        }
    }
}
