// The kinds of lines, with their fields as parts of the text, and the words and numbers in their fields.
ghost use Rattle.std.specs.Prelude.{◌≡◌, ℕ, List, map, ◌+◌, Some, None, MatchResult};
ghost use Rattle.std.specs.Option.{option_map};
ghost use Rattle.job.specs.declared.faults.RecordFault.TheVariants.{NotNumber, UnknownWord};
ghost use Rattle.job.specs.Text.{fields};
ghost use Rattle.job.specs.Number.{number};
ghost use Rattle.job.specs.Kind.{keyword, kind_by, kind};
ghost use Rattle.job.specs.Reading.{duty_word};
ghost use Rattle.job.specs.Cutting.{UncutRecord};
ghost use Rattle.job.specs.Inside.{seen, padded, shown_line, Handed};

use crate::cutter::Cutter;
use crate::faults::RecordFault;
use crate::fields::{first_fields, read_number};

// The words that begin a line.
#[derive(Clone, Copy)]
pub(crate) enum Keyword {
    Duty,
    Site,
    Queue,
    Place,
    Way,
    Close,
}

impl Keyword {
    // The keyword that a word is, if it is one.
    fn read(word: &[u8]) -> Option<Keyword>
        ensures { result ≡ keyword word.now }
    {
        match word {
            b"duty" => Some(Keyword::Duty),
            b"site" => Some(Keyword::Site),
            b"queue" => Some(Keyword::Queue),
            b"place" => Some(Keyword::Place),
            b"way" => Some(Keyword::Way),
            b"close" => Some(Keyword::Close),
            _ => None,
        }
    }
}

// The words that name a duty.
#[derive(Clone, Copy)]
pub(crate) enum DutyWord {
    Window,
}

impl DutyWord {
    // The duty that a word names, if it names one.
    fn read(word: &[u8]) -> Option<DutyWord>
        ensures { result ≡ duty_word word.now }
    {
        match word {
            b"window" => Some(DutyWord::Window),
            _ => None,
        }
    }
}

// A line by its kind.
#[derive(Clone, Copy)]
pub(crate) enum Line<'a> {
    Duty {
        word: &'a [u8],
        bound: Option<&'a [u8]>,
    },
    Site {
        count: &'a [u8],
    },
    Queue {
        capacity: &'a [u8],
    },
    Place {
        number: &'a [u8],
        side: &'a [u8],
        mark: &'a [u8],
    },
    Way {
        from: &'a [u8],
        to: &'a [u8],
    },
    Close {
        from: &'a [u8],
        to: &'a [u8],
    },
}

impl<'a> Line<'a> {
    // None where the keyword is none, or the number of fields is wrong.
    pub(crate) fn read(line: &'a [u8]) -> Option<Line<'a>>
        ensures { option_map shown_line result ≡ kind line.now }
    {
        let (word, after) = first_fields(line);
        Line::after(Keyword::read(word?)?, after)
    }

    // A line by the four fields after its keyword. No kind has more than three: a fourth is one too many.
    fn after(keyword: Keyword, fields: [Option<&'a [u8]>; 4]) -> Option<Line<'a>>
        requires { (fs : List (List ℕ)) × (map seen fields ≡ padded 4 fs) }
        ensures { (fs : List (List ℕ)) → map seen fields.entry ≡ padded 4 fs → option_map shown_line result ≡ kind_by keyword fs }
    {
        match (keyword, fields) {
            (Keyword::Duty, [Some(word), bound, None, _]) => Some(Line::Duty { word, bound }),
            (Keyword::Site, [Some(count), None, ..]) => Some(Line::Site { count }),
            (Keyword::Queue, [Some(capacity), None, ..]) => Some(Line::Queue { capacity }),
            (Keyword::Place, [Some(number), Some(side), Some(mark), None]) => Some(Line::Place {
                number,
                side,
                mark,
            }),
            (Keyword::Way, [Some(from), Some(to), None, _]) => Some(Line::Way { from, to }),
            (Keyword::Close, [Some(from), Some(to), None, _]) => Some(Line::Close { from, to }),
            _ => None,
        }
    }
}

// The next line; none at the end of the text. A fault of the cutter's goes up in one of the record's.
pub(crate) fn next_line<'a>(cutter: &mut Cutter<'a>) -> Result<Option<&'a [u8]>, RecordFault>
    ensures { MatchResult result
        (λ o. Handed cutter.old o cutter.new)
        (λ e. UncutRecord cutter.old.rest.now (cutter.old.line + 1) e × (cutter.new ≡ cutter.old)) }
{
    Ok(cutter.next()?)
}

// A field to be read: its bytes, and for a fault the line that it stands in and its number there.
#[derive(Clone, Copy)]
pub(crate) struct Field<'a> {
    pub(crate) text: &'a [u8],
    pub(crate) line: usize,
    pub(crate) number: u8,
}

impl<'a> Field<'a> {
    // The number in it.
    pub(crate) fn numeral(self) -> Result<u16, RecordFault>
        ensures { MatchResult result
            (λ n. number self.entry.text.now ≡ Some n)
            (λ e. (number self.entry.text.now ≡ None) × (e ≡ NotNumber self.entry.line self.entry.number)) }
    {
        read_number(self.text).ok_or(RecordFault::NotNumber {
            line: self.line,
            field: self.number,
        })
    }

    // The duty that it names.
    pub(crate) fn duty_word(self) -> Result<DutyWord, RecordFault>
        ensures { MatchResult result
            (λ w. duty_word self.entry.text.now ≡ Some w)
            (λ e. (duty_word self.entry.text.now ≡ None) × (e ≡ UnknownWord self.entry.line self.entry.number)) }
    {
        DutyWord::read(self.text).ok_or(RecordFault::UnknownWord {
            line: self.line,
            field: self.number,
        })
    }
}
