// Cuts a text into lines. What ends a line, and how long one may be, is known here alone.
ghost use Rattle.std.specs.Prelude.{◌≡◌, ◌+◌, ◌^◌, ◌<◌, ◌≤◌, ◌==◌, length, take, position, MatchOption, IfSome, MatchResult};
ghost use Rattle.job.specs.Text.{line_end, line_limit};
ghost use Rattle.job.specs.Cutting.{Ended, CutOff, Uncut};

use crate::faults::CutFault;

// The byte that ends a line.
const LINE_END: u8 = b'\n';

// The most bytes that may stand before it.
const LINE_LIMIT: usize = 64;

// What is left of a text, after so many lines.
#[derive(Drop)]
pub(crate) struct Cutter<'a> {
    rest: &'a [u8],
    line: usize,
    ghost countable: { line + length rest.now < 2 ^ 63 },
}

impl<'a> Cutter<'a> {
    pub(crate) fn new(text: &'a [u8]) -> Cutter<'a>
        ensures whole { result.rest.now ≡ text.now }
        ensures first { result.line ≡ 0 }
    {
        Cutter {
            rest: text,
            line: 0,
        }
    }

    // How many lines have been cut.
    pub(crate) fn line(&self) -> usize
        ensures { result ≡ self.now.line }
    {
        self.line
    }

    // The next line without its end; none at the end of the text.
    // No Iterator: each item would be a Result, and after a fault the same fault would come for ever.
    #[tactic(auto, using(std::proofs::lemmas::List::nil_from_length))]
    pub(crate) fn next(&mut self) -> Result<Option<&'a [u8]>, CutFault>
        ensures { MatchResult result
            (λ o. MatchOption o
            (Ended self.old.rest.now × (self.new ≡ self.old))
            (λ l. CutOff self.old.rest.now l.now self.new.rest.now
            × (self.new.line ≡ self.old.line + 1)
            × (length self.new.rest.now < length self.old.rest.now)))
            (λ e. Uncut self.old.rest.now (self.old.line + 1) e × (self.new ≡ self.old)) }
    {
        if self.rest.is_empty() {
            return Ok(None);
        }
        let (line, rest) = cut_line(self.rest, self.line + 1)?;
        self.rest = rest;
        self.line += 1;
        Ok(Some(line))
    }
}

// The first line of a text that is not empty, and what comes after its end.
#[tactic(auto, using(crate::proofs::Places::cut_at, crate::proofs::Places::too_long, crate::proofs::Places::not_ended))]
fn cut_line<'a>(text: &'a [u8], line: usize) -> Result<(&'a [u8], &'a [u8]), CutFault>
    requires { 0 < length text.now }
    ensures { MatchResult result
        (λ p. CutOff text.now p.0.now p.1.now × (length p.1.now < length text.now))
        (λ e. Uncut text.now line e) }
{
    match line_end(text) {
        Some(end) => Ok((&text[..end], &text[end + 1..])),
        None if text.len() > LINE_LIMIT => Err(CutFault::TooLong { line }),
        None => Err(CutFault::NoEnd { line }),
    }
}

// The place of the byte that ends the first line, if it comes in time.
fn line_end(text: &[u8]) -> Option<usize>
    ensures first { result ≡ position (λ b. b == line_end) (take (line_limit + 1) text.now) }
    ensures within { IfSome result (λ end. end < length text.now) }
{
    text.iter()
        .take(LINE_LIMIT + 1)
        .position(|byte| *byte == LINE_END)
}
