// Why a text is refused. Each layer has its faults, and carries those of the layer below it whole.
ghost use Rattle.std.specs.Prelude.{◌≡◌};
ghost use Rattle.job.specs.declared.faults.RecordFault.TheVariants.{Cut};
ghost use Rattle.job.specs.declared.faults.JobFault.TheVariants.{Record};
ghost use Rattle.job.specs.Faults.{report};

// No line can be cut.
#[derive(Clone, Copy, Debug, PartialEq, Eq)]
pub enum CutFault {
    // the text ends in a piece without an LF
    NoEnd { line: usize },
    // more bytes than a line may have come without an LF
    TooLong { line: usize },
}

// A field cannot be read. Line and field stand in each case, and not in a struct of the two: each is told alone.
#[derive(Clone, Copy, Debug, PartialEq, Eq)]
pub enum RecordFault {
    Cut(CutFault),
    NotNumber { line: usize, field: u8 },
    UnknownWord { line: usize, field: u8 },
}

// The lines do not make a job. A field is named here as it is in RecordFault.
#[derive(Clone, Copy, Debug, PartialEq, Eq)]
pub enum JobFault {
    Record(RecordFault),
    // the keyword is not due, or the number of fields is wrong
    NotDue { line: usize },
    // the text ends where this line is due
    EndsEarly { line: usize },
    OutOfRange { line: usize, field: u8 },
}

// The layer of the reader that finds a fault.
#[derive(Clone, Copy, Debug, PartialEq, Eq)]
pub enum Layer {
    Cutter,
    Record,
    Job,
}

// Written out and not derived: a clause names the case that `?` makes, and a derived From promises none.
impl From<CutFault> for RecordFault {
    ghost from_gives = { λ e r. r ≡ Cut e };

    fn from(e: CutFault) -> RecordFault {
        RecordFault::Cut(e)
    }
}

impl From<RecordFault> for JobFault {
    ghost from_gives = { λ e r. r ≡ Record e };

    fn from(e: RecordFault) -> JobFault {
        JobFault::Record(e)
    }
}

impl JobFault {
    // The number that the refusal's line prints; code matches on the cases.
    pub fn number(self) -> u8
        ensures { result ≡ (report self).number }
    {
        match self {
            JobFault::Record(RecordFault::Cut(_)) => 11,
            JobFault::NotDue { .. } | JobFault::EndsEarly { .. } => 12,
            JobFault::Record(_) => 13,
            JobFault::OutOfRange { .. } => 14,
        }
    }

    // The line, from 1 on; an early end names the line after the last.
    pub fn line(self) -> usize
        ensures { result ≡ (report self).line }
    {
        match self {
            JobFault::Record(
                RecordFault::Cut(CutFault::NoEnd { line } | CutFault::TooLong { line }),
            ) => line,
            JobFault::Record(
                RecordFault::NotNumber { line, .. } | RecordFault::UnknownWord { line, .. },
            ) => line,
            JobFault::NotDue { line }
            | JobFault::EndsEarly { line }
            | JobFault::OutOfRange { line, .. } => line,
        }
    }

    // The field, from 1 on, the keyword being the first; 0 where the fault names none.
    // A number and no Option: it is the number that the refusal's line prints.
    pub fn field(self) -> u8
        ensures { result ≡ (report self).field }
    {
        match self {
            JobFault::Record(
                RecordFault::NotNumber { field, .. } | RecordFault::UnknownWord { field, .. },
            ) => field,
            JobFault::OutOfRange { field, .. } => field,
            _ => 0,
        }
    }

    pub fn layer(self) -> Layer
        ensures { result ≡ (report self).layer }
    {
        match self {
            JobFault::Record(RecordFault::Cut(_)) => Layer::Cutter,
            JobFault::Record(_) => Layer::Record,
            _ => Layer::Job,
        }
    }
}
