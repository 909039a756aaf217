// The window duty: among every `bound` successive marks one closes, being even and the lowest from the first on.
ghost use Rattle.std.specs.Prelude.{◌≡◌, ℕ, ◌<◌, ◌≤◌, ◌↔◌, List, IsTrue, IsNone, IfSome, MatchResult};
ghost use Rattle.game.specs.Parity.{is_odd};
ghost use Rattle.game.specs.declared.Refusal.TheVariants.{Limits};
ghost use Rattle.meanings.specs.Window.{WindowLimits, window, codes, low_of, count_of, code_at};
ghost use Rattle.meanings.specs.WindowCode.{WindowCode};
ghost use Rattle.meanings.proofs.Windows.{window_lawful};

use game::{Duty, Refusal, is_odd};

// The code that says that no window is open. A code is a number: it says where in a table's row an entry stands.
const CLOSED: u8 = 0;

#[derive(Clone, Copy, Debug, PartialEq, Eq)]
pub struct Window {
    bound: u8,
    ghost limits: { WindowLimits bound },
}

// The earliest window still open: the lowest of its marks so far, and how many they are.
#[derive(Clone, Copy, Debug, PartialEq, Eq)]
struct Open {
    low: u8,
    count: u8,
    ghost odd: { IsTrue (is_odd low) },
    ghost highest: { low ≤ 15 },
    ghost some: { 1 ≤ count },
}

impl Window {
    // The window duty of this bound, from 1 to 32.
    // Not shared with Queue::new of maps: what they have in common is the one test, and that is a call of the library.
    pub fn new(bound: u8) -> Result<Window, Refusal>
        ensures { MatchResult result
            (λ w. (w.bound ≡ bound) × WindowLimits bound × ((ms : List ℕ) → WindowCode w.bound ms))
            (λ e. (e ≡ Limits) × (WindowLimits bound → ⊥)) }
    {
        if (1..=32).contains(&bound) {
            Ok(Window { bound })
        } else {
            Err(Refusal::Limits)
        }
    }

    // What a code says of the earliest open window; None where none is open.
    fn earliest_open(&self, code: u8) -> Option<Open>
        requires { code < codes self.now.bound }
        ensures none { IsNone result ↔ (code ≡ CLOSED) }
        ensures low { IfSome result (λ earliest. earliest.low ≡ low_of self.now.bound code) }
        ensures count { IfSome result (λ earliest. earliest.count ≡ count_of self.now.bound code) }
    {
        if code == CLOSED {
            return None;
        }
        let low = 2 * ((code - 1) / (self.bound - 1)) + 1;
        let count = (code - 1) % (self.bound - 1) + 1;
        Some(Open { low, count })
    }

    // The code where this window is the earliest open one.
    fn code(&self, earliest: Open) -> u8
        requires { earliest.count < self.now.bound }
        ensures { result ≡ code_at self.now.bound earliest.low earliest.count }
    {
        1 + (earliest.low - 1) / 2 * (self.bound - 1) + (earliest.count - 1)
    }
}

impl Duty for Window {
    ghost rule = { λ d. window d.bound };

    ghost lawful = { λ d. window_lawful d.bound d.limits };

    fn codes(&self) -> u8 {
        1 + 8 * (self.bound - 1)
    }

    fn start(&self) -> u8 {
        CLOSED
    }

    fn step(&self, code: u8, mark: u8) -> Option<u8> {
        if code >= self.codes() || mark > 15 {
            return None;
        }
        // A mark that closes the earliest open window closes every later one too, its own among them.
        let earliest = self.earliest_open(code);
        if !is_odd(mark) && earliest.is_none_or(|open| mark <= open.low) {
            return Some(CLOSED);
        }
        let longer = match earliest {
            Some(open) => Open {
                low: open.low.min(mark),
                count: open.count + 1,
            },
            None => Open {
                low: mark,
                count: 1,
            },
        };
        (longer.count < self.bound).then(|| self.code(longer))
    }
}
