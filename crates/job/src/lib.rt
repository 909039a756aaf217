// Reads a job text: the cutter parts it into lines, the records tell their kinds, words and numbers, the reader makes the job.
#![tactic(auto)]

ghost use Rattle.std.specs.Prelude.{◌≡◌};
ghost use Rattle.job.specs.Laws.{ReadLaw};
ghost use Rattle.job.specs.Reading.{outcome};
ghost use Rattle.job.specs.Shown.{shown};

use duties::Window;
use maps::Queue;

mod cutter;
mod faults;
mod fields;
mod reader;
mod records;

pub use faults::{CutFault, JobFault, Layer, RecordFault};

// What a job text asks: to keep this duty on this map.
#[derive(Clone, Copy, Debug, PartialEq, Eq)]
pub struct Job {
    pub duty: Window,
    pub map: Queue,
}

// The job that a text says, or the fault of its first unfit line.
pub fn read(text: &[u8]) -> Result<Job, JobFault>
    ensures outcome { shown result ≡ outcome text.now }
    ensures law { ReadLaw text.now (shown result) }
{
    reader::Reader::new(text).read()
}
