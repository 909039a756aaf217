// Reads a job: what may come next depends on what has come.
ghost use Rattle.std.specs.Prelude.{◌≡◌, ℕ, suc, ◌≤◌, Some, MatchResult};
ghost use Rattle.std.specs.Option.{option_map};
ghost use Rattle.job.specs.Number.{number};
ghost use Rattle.job.specs.Job.{capacity_top};
ghost use Rattle.job.specs.Kind.{duty_line, queue_line};
ghost use Rattle.job.specs.Reading.{Ruling, next, unfit, due_duty, due_map, within, worded, duty_word, bounded, ruled, judged, fault, at_end, outcome};
ghost use Rattle.job.specs.Inside.{seen, shown_line, state_of, goes, ahead};
ghost use Rattle.job.specs.Shown.{shown_duty, shown};

use crate::Job;
use crate::cutter::Cutter;
use crate::faults::JobFault;
use crate::records::{DutyWord, Field, Line, next_line};
use duties::Window;
use maps::Queue;

// The bound of a duty whose line leaves it out.
const DEFAULT_BOUND: u8 = 8;

// The fields of a duty's line, and of a queue's; the keyword is field 1.
const WORD: u8 = 2;

const BOUND: u8 = 3;

const CAPACITY: u8 = 2;

// What is due, with what has come.
#[derive(Clone, Copy)]
pub(crate) enum Phase {
    Duty,
    Map { duty: Window },
    // the job is whole; closings may follow once they are taken
    Close { duty: Window, map: Queue },
}

#[derive(Drop)]
pub(crate) struct Reader<'a> {
    cutter: Cutter<'a>,
    phase: Phase,
}

impl<'a> Reader<'a> {
    pub(crate) fn new(text: &'a [u8]) -> Reader<'a>
        ensures { ahead result ≡ outcome text.now }
    {
        Reader {
            cutter: Cutter::new(text),
            phase: Phase::Duty,
        }
    }

    // Reads to the end of the text.
    pub(crate) fn read(mut self) -> Result<Job, JobFault>
        ensures { shown result ≡ ahead self.entry }
    {
        while let Some(line) = next_line(&mut self.cutter)? {
            self.phase = self.phase_after(Line::read(line))?;
        }
        self.finish()
    }

    // What is due after a line that has just been cut, if its kind is due. Phase and kind are matched together, so that what
    // may follow what is said once.
    fn phase_after(&self, kind: Option<Line<'a>>) -> Result<Phase, JobFault>
        ensures { judged self.now.cutter.line (state_of self.now.phase) (option_map shown_line kind.entry)
            ≡ goes result (λ phase. next (state_of phase)) }
    {
        let line = self.cutter.line();
        match (self.phase, kind) {
            (Phase::Duty, Some(Line::Duty { word, bound })) => Ok(Phase::Map {
                duty: duty_record(line, word, bound)?,
            }),
            (Phase::Map { duty }, Some(Line::Queue { capacity })) => Ok(Phase::Close {
                duty,
                map: queue_record(line, capacity)?,
            }),
            _ => Err(JobFault::NotDue { line }),
        }
    }

    // The job, where the text ends.
    fn finish(self) -> Result<Job, JobFault>
        ensures { shown result ≡ at_end (state_of self.entry.phase) (suc self.entry.cutter.line) }
    {
        match self.phase {
            Phase::Duty | Phase::Map { .. } => Err(JobFault::EndsEarly {
                line: self.cutter.line() + 1,
            }),
            Phase::Close { duty, map } => Ok(Job { duty, map }),
        }
    }
}

// The number in a field as a byte. All limits are below 256, so a number that is no byte is outside them.
fn small_number(field: Field) -> Result<u8, JobFault>
    ensures { MatchResult result
        (λ b. number field.entry.text.now ≡ Some b)
        (λ e. (low top : ℕ) (go : ℕ → Ruling) → top ≤ 256 → within field.entry.line field.entry.number low top field.entry.text.now go ≡ unfit e) }
{
    u8::try_from(field.numeral()?).map_err(|_| JobFault::OutOfRange {
        line: field.line,
        field: field.number,
    })
}

// A duty's fields. The limits of its bound are the duty's own.
fn duty_record(line: usize, word: &[u8], bound: Option<&[u8]>) -> Result<Window, JobFault>
    ensures { worded line 2 (duty_word word.now) (bounded line (seen bound.entry))
        ≡ goes result (λ w. next (due_map (shown_duty w))) }
{
    let DutyWord::Window = Field {
        text: word,
        line,
        number: WORD,
    }
    .duty_word()?;
    let number = match bound {
        Some(text) => small_number(Field {
            text,
            line,
            number: BOUND,
        })?,
        None => DEFAULT_BOUND,
    };
    Window::new(number).map_err(|_| JobFault::OutOfRange { line, field: BOUND })
}

// A queue's field. The limits of its capacity are the queue's own. Two records and no generic one: a duty's line has a word
// and may leave its bound out.
fn queue_record(line: usize, capacity: &[u8]) -> Result<Queue, JobFault>
    ensures { (go : ℕ → Ruling) → within line 2 1 capacity_top capacity.now go ≡ goes result (λ q. go q.capacity) }
{
    let number = small_number(Field {
        text: capacity,
        line,
        number: CAPACITY,
    })?;
    Queue::new(number).map_err(|_| JobFault::OutOfRange {
        line,
        field: CAPACITY,
    })
}
