// What a map and a duty mean, the questions that each answers from its meaning alone, and the refusals of all calls.
// The meanings and the rules of the game are in specs/, the theorems about them in proofs/.
#![tactic(auto)]

ghost use Rattle.std.specs.Prelude.{◌≡◌, length};
ghost use Rattle.game.specs.Parity.{is_odd, TellsOdd};
ghost use Rattle.game.specs.Sides.{side_of};
ghost use Rattle.game.specs.Graph.{Graph, Fit, target};
ghost use Rattle.game.specs.Rule.{Rule, Lawful};
ghost use Rattle.game.specs.Rounds.{positions};
ghost use Rattle.game.specs.Refusals.{refusal_number, refusal_position};
ghost use Rattle.game.specs.Laws.{Laws, SameTables};

// The two sides of a game (its players).
#[derive(Clone, Copy, Debug, PartialEq, Eq)]
pub enum Side {
    House,
    Guest,
}

// Why a call is refused. specs/Refusals.antt gives each case its number and values.
#[derive(Clone, Copy, Debug, PartialEq, Eq)]
pub enum Refusal {
    // a number is outside its limits
    Limits,
    // a list of ways or closings has no room for one more
    Full,
    // a table buffer has fewer entries than there are positions
    Short,
    // this position disobeys the check's rules, and no lower one does
    Disobeys(u16),
    // the listing space is too small
    Space,
    // the starting place is not on the map
    Start,
    // the shift is ended
    Ended,
    // the place is the wrong side's
    WrongSide,
    // the reported way does not exist
    NoWay,
    // the sizes differ from the pass, or the plan byte names no way
    Misfit,
}

impl Refusal {
    // The number that a refusal is told by; code matches on the cases.
    pub fn number(self) -> u8
        ensures { result ≡ refusal_number self }
    {
        match self {
            Refusal::Limits => 14,
            Refusal::Full => 15,
            Refusal::Short => 21,
            Refusal::Disobeys(_) => 22,
            Refusal::Space => 23,
            Refusal::Start => 31,
            Refusal::Ended => 32,
            Refusal::WrongSide => 33,
            Refusal::NoWay => 34,
            Refusal::Misfit => 35,
        }
    }

    // The position that disobeys, where the refusal names one.
    pub fn position(self) -> Option<u16>
        ensures { result ≡ refusal_position self }
    {
        match self {
            Refusal::Disobeys(position) => Some(position),
            _ => None,
        }
    }
}

// Whether a mark is odd: the one place in the build that tells.
#[tactic(auto, using(crate::proofs::Parities::tells_odd))]
pub fn is_odd(mark: u8) -> bool
    ensures test { result ≡ is_odd mark }
    ensures means { TellsOdd mark result }
{
    mark % 2 != 0
}

// A map (a game graph), by its questions. Each is answered from the graph alone, at any number, and alters nothing.
pub trait Map {
    ghost graph: { Self → Graph };

    ghost fit: { (m : Self) → Fit (graph m) };

    // How many places there are.
    fn size(&self) -> u8
        ensures { result ≡ (graph self.now).size };

    // Whose turn a place is.
    fn side(&self, v: u8) -> Side
        ensures { result ≡ side_of ((graph self.now).house v) };

    fn mark(&self, v: u8) -> u8
        ensures { result ≡ (graph self.now).mark v };

    // How many ways a place lists.
    fn ways(&self, v: u8) -> u8
        ensures { result ≡ length ((graph self.now).ways v) };

    // Where way i of a place leads.
    fn way(&self, v: u8, i: u8) -> u8
        ensures { result ≡ target (graph self.now) v i };
}

// A duty (an objective with its monitor), by its questions. Each is answered from the rule alone and alters nothing.
pub trait Duty {
    ghost rule: { Self → Rule };

    ghost lawful: { (d : Self) → Lawful (rule d) };

    // How many codes there are.
    fn codes(&self) -> u8
        ensures { result ≡ (rule self.now).codes };

    // The code of the empty list.
    fn start(&self) -> u8
        ensures { result ≡ (rule self.now).start };

    // The next code, or None where the step says broken.
    fn step(&self, c: u8, m: u8) -> Option<u8>
        ensures { result ≡ (rule self.now).step c m };
}

// How many positions there are: places times codes, at most 31,872. Calls take a map and a duty as two: no fact ties them, and
// a struct of two references would be made at each call and taken apart inside.
pub fn position_count<M: Map, D: Duty>(map: &M, duty: &D) -> u16
    ensures { result ≡ positions (M.graph map.now) (D.rule duty.now) }
{
    u16::from(map.size()) * u16::from(duty.codes())
}

// The laws of rounds, tables, the check and shifts hold for this map and duty.
pub fn laws_hold<M: Map, D: Duty>(map: &M, duty: &D)
    ensures { Laws (M.graph map.now) (D.rule duty.now) }
{}

// Where two maps and two duties mean the same game, their solved tables are the same.
pub fn same_tables<M: Map, N: Map, D: Duty, E: Duty>(map: &M, duty: &D, other: &N, beside: &E)
    ensures { SameTables
        (M.graph map.now) (D.rule duty.now)
        (N.graph other.now) (E.rule beside.now) }
{}
