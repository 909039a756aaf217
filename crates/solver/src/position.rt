// A position of a game, and what the counts of all positions say of it.
ghost use Rattle.std.specs.Prelude.{◌≡◌, ◌<◌, ◌≤◌, length};
ghost use Rattle.std.specs.Option.{unwrap_or};
ghost use Rattle.game.specs.Graph.{moves};
ghost use Rattle.game.specs.Rounds.{positions, attracted};
ghost use Rattle.game.specs.Table.{entry};
ghost use Rattle.solver.specs.Moves.{ahead, all_counted, some_counted, lowest, least};
ghost use Rattle.solver.specs.Rounds.{gains_at, is_due, Finished};
ghost use Rattle.solver.specs.Solve.{FitPlan};

use crate::rows::index;
use game::{Duty, Map, Side};

// A place and a code of a game, with a count for each of the game's positions.
#[derive(Drop)]
pub(crate) struct Position<'a, M: Map, D: Duty> {
    map: &'a M,
    duty: &'a D,
    count: &'a [u16],
    place: u8,
    code: u8,
    ghost room: { positions (M.graph map.now) (D.rule duty.now) ≤ length count.now },
    ghost on: { place < (M.graph map.now).size },
    ghost coded: { code < (D.rule duty.now).codes },
}

impl<'a, M: Map, D: Duty> Position<'a, M, D> {
    pub(crate) fn new(
        map: &'a M,
        duty: &'a D,
        count: &'a [u16],
        place: u8,
        code: u8,
    ) -> Position<'a, M, D>
        requires room { positions (M.graph map.now) (D.rule duty.now) ≤ length count.now }
        requires on { place < (M.graph map.now).size }
        requires coded { code < (D.rule duty.now).codes }
        ensures map { result.map.now ≡ map.now }
        ensures duty { result.duty.now ≡ duty.now }
        ensures count { result.count.now ≡ count.now }
        ensures place { result.place ≡ place }
        ensures code { result.code ≡ code }
    {
        Position {
            map,
            duty,
            count,
            place,
            code,
        }
    }

    // Another position of the same game.
    fn at(&self, place: u8, code: u8) -> Position<'a, M, D>
        requires on { place < (M.graph self.now.map.now).size }
        requires coded { code < (D.rule self.now.duty.now).codes }
        ensures map { result.map.now ≡ self.now.map.now }
        ensures duty { result.duty.now ≡ self.now.duty.now }
        ensures count { result.count.now ≡ self.now.count.now }
        ensures place { result.place ≡ place }
        ensures code { result.code ≡ code }
    {
        Position::new(self.map, self.duty, self.count, place, code)
    }

    // 0 where the position has none: the table holds it so, and it is compared as it stands.
    fn count(&self) -> u16
        ensures { result ≡ entry (D.rule self.now.duty.now).codes self.now.count.now
            self.now.place self.now.code }
    {
        self.count[index(self.duty.codes(), self.place, self.code)]
    }

    // How many moves the place has: one at least.
    fn moves(&self) -> u8
        ensures { result ≡ length (moves (M.graph self.now.map.now) self.now.place) }
    {
        self.map.ways(self.place).max(1)
    }

    // The count where move k leads, at the same code.
    fn ahead(&self, k: u8) -> u16
        requires { k < length (moves (M.graph self.now.map.now) self.now.place) }
        ensures { result ≡ ahead (M.graph self.now.map.now) (D.rule self.now.duty.now)
            self.now.count.now self.now.place self.now.code k }
    {
        self.at(self.map.way(self.place, k), self.code).count()
    }

    // Whether all moves lead to counted positions.
    fn all_counted(&self) -> bool
        ensures { result ≡ all_counted (M.graph self.now.map.now) (D.rule self.now.duty.now)
            self.now.count.now self.now.place self.now.code }
    {
        (0..self.moves()).all(|k| self.ahead(k) != 0)
    }

    // Whether some move leads to a counted position.
    fn some_counted(&self) -> bool
        ensures { result ≡ some_counted (M.graph self.now.map.now) (D.rule self.now.duty.now)
            self.now.count.now self.now.place self.now.code }
    {
        (0..self.moves()).any(|k| self.ahead(k) != 0)
    }

    // Whether the place gets a count from the counts where its moves lead, at the same code.
    #[tactic(auto, using(crate::proofs::Moves::attracted_told))]
    fn attracts(&self) -> bool
        ensures { result ≡ attracted (M.graph self.now.map.now) self.now.place
            (λ t. entry (D.rule self.now.duty.now).codes self.now.count.now t self.now.code) }
    {
        match self.map.side(self.place) {
            Side::House => self.all_counted(),
            Side::Guest => self.some_counted(),
        }
    }

    // Whether the counts so far give the position one.
    fn gains(&self) -> bool
        ensures { result ≡ gains_at (M.graph self.now.map.now) (D.rule self.now.duty.now)
            self.now.count.now self.now.place self.now.code }
    {
        match self.duty.step(self.code, self.map.mark(self.place)) {
            None => true,
            Some(e) => self.at(self.place, e).attracts(),
        }
    }

    // Whether the next round counts the position.
    pub(crate) fn is_due(&self) -> bool
        ensures { result ≡ is_due (M.graph self.now.map.now) (D.rule self.now.duty.now)
            self.now.count.now self.now.place self.now.code }
    {
        self.count() == 0 && self.gains()
    }

    // The lowest move to a count of n, at the same code. Always inlined, and `least` too: a call of its own would take the position by
    // its address, and then the compiler reads map and duty again at every entry of a table, after each that it writes.
    #[inline(always)]
    fn lowest(&self, n: u16) -> Option<u8>
        ensures { result ≡ lowest (M.graph self.now.map.now) (D.rule self.now.duty.now)
            self.now.count.now self.now.place self.now.code n }
    {
        (0..self.moves()).find(|k| self.ahead(*k) == n)
    }

    // The smallest count above 0 to which a move leads, at the same code.
    #[inline(always)]
    fn least(&self) -> Option<u16>
        ensures { result ≡ least (M.graph self.now.map.now) (D.rule self.now.duty.now)
            self.now.count.now self.now.place self.now.code }
    {
        (0..self.moves())
            .map(|k| self.ahead(k))
            .filter(|n| *n != 0)
            .min()
    }

    // The move that finished counts ask for, if they ask for one. `Finished` is asked here, in plan_byte and in plan_all, and is
    // no type: unfinished counts are the same lent buffer, and only the end of count_all tells them apart.
    pub(crate) fn planned(&self) -> Option<u8>
        requires { Finished (M.graph self.now.map.now) (D.rule self.now.duty.now)
            self.now.count.now }
        ensures { FitPlan (M.graph self.now.map.now) (D.rule self.now.duty.now)
            self.now.count.now self.now.place self.now.code (unwrap_or result 8) }
    {
        let e = self.duty.step(self.code, self.map.mark(self.place))?;
        let here = self.count();
        let next = self.at(self.place, e);
        match self.map.side(self.place) {
            Side::House if here == 0 => next.lowest(0),
            Side::Guest if here > 1 => next.lowest(next.least()?),
            _ => None,
        }
    }
}
