// From a job text to its listing: reads the job, solves its game and writes who is given each place.
#![tactic(auto)]

ghost use Rattle.std.specs.Prelude.{◌≡◌, ◌≤◌, length, Some, MatchResult};
ghost use Rattle.decision.specs.declared.Declined.TheVariants.{Text, Call};
ghost use Rattle.decision.specs.Deciding.{Lists, LacksSpace, Decides, Declines, number_of, line_of, field_of, refused_line};

#[cfg(test)]
mod tests;

use game::{Duty, Map, Refusal};
use job::JobFault;
use listing::write_listing;
use solver::solve;
use std::fmt;

// The entries that the tables of every job fit in: 128 places with 249 codes each.
const MOST_POSITIONS: usize = 31_872;

// Why no listing is given.
#[derive(Clone, Copy, Debug, PartialEq, Eq)]
pub enum Declined {
    // the text does not say a job
    Text(JobFault),
    Call(Refusal),
}

// Written out and not derived: a clause names the case that `?` makes, and a derived From promises none.
impl From<JobFault> for Declined {
    ghost from_gives = { λ e r. r ≡ Text e };

    fn from(e: JobFault) -> Declined {
        Declined::Text(e)
    }
}

impl From<Refusal> for Declined {
    ghost from_gives = { λ e r. r ≡ Call e };

    fn from(e: Refusal) -> Declined {
        Declined::Call(e)
    }
}

// A refusal is told by three numbers, with 0 for no line and no field: so they are no enum and no Option.
impl Declined {
    pub fn number(self) -> u8
        ensures { result ≡ number_of self }
    {
        match self {
            Declined::Text(fault) => fault.number(),
            Declined::Call(refusal) => refusal.number(),
        }
    }

    // The line of the text, from 1 on; 0 where no line is at fault.
    pub fn line(self) -> usize
        ensures { result ≡ line_of self }
    {
        match self {
            Declined::Text(fault) => fault.line(),
            Declined::Call(_) => 0,
        }
    }

    // The field of that line, from 1 on; 0 where no field is at fault.
    pub fn field(self) -> u8
        ensures { result ≡ field_of self }
    {
        match self {
            Declined::Text(fault) => fault.field(),
            Declined::Call(_) => 0,
        }
    }
}

// As the program tells it: `refused,number,line,field`.
impl fmt::Display for Declined {
    ghost output = { λ d. Some (refused_line d) };

    fn fmt<W: fmt::Write>(&self, f: &mut fmt::Formatter<W>) -> fmt::Result {
        let number = self.number();
        let line = self.line();
        let field = self.field();
        write!(f, "refused,{number},{line},{field}")
    }
}

// Solves a game in lent tables and writes its listing. They have room for every game, so only the space can be too small.
fn list_game<M: Map, D: Duty>(
    map: &M,
    duty: &D,
    plan: &mut [u8],
    count: &mut [u16],
    space: &mut [u8],
) -> Result<usize, Refusal>
    requires plans { 31872 ≤ length plan.old }
    requires counts { 31872 ≤ length count.old }
    ensures { MatchResult result
        (Lists (M.graph map.now) (D.rule duty.now) space.old space.new)
        (LacksSpace space.old space.new) }
{
    solve(map, duty, plan, count)?;
    write_listing(map, duty, count, space)
}

// Decides in lent tables.
fn decide_in(
    text: &[u8],
    plan: &mut [u8],
    count: &mut [u16],
    space: &mut [u8],
) -> Result<usize, Declined>
    requires plans { 31872 ≤ length plan.old }
    requires counts { 31872 ≤ length count.old }
    ensures { MatchResult result
        (Decides text.now space.old space.new)
        (Declines text.now space.old space.new) }
{
    let job = job::read(text)?;
    let long = list_game(&job.map, &job.duty, plan, count, space)?;
    Ok(long)
}

// Writes the listing of the text's job at the start of the space and answers its length; or declines, and the space is
// as it was. A text's fault comes before a space that is too small. The space is lent and the tables are arrays: the
// call is to be made from C too, where there is no allocator, so a space comes in and a length goes out.
pub fn decide(text: &[u8], space: &mut [u8]) -> Result<usize, Declined>
    ensures { MatchResult result
        (Decides text.now space.old space.new)
        (Declines text.now space.old space.new) }
{
    let mut plan = [0u8; MOST_POSITIONS];
    let mut count = [0u16; MOST_POSITIONS];
    decide_in(text, &mut plan, &mut count, space)
}
