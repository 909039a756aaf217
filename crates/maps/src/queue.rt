// The queue map: a queue of limited capacity, where by turns the guest may add one and the house may let one in.
ghost use Rattle.std.specs.Prelude.{◌≡◌, ◌/◌, ◌<◌, ◌↔◌, IsSome, IfSome, MatchResult};
ghost use Rattle.game.specs.Parity.{is_odd};
ghost use Rattle.game.specs.Sides.{side_of};
ghost use Rattle.game.specs.declared.Refusal.TheVariants.{Limits};
ghost use Rattle.meanings.specs.Queue.{QueueLimits, QueueRule, queue_graph, queue_size};
ghost use Rattle.meanings.proofs.Queues.{queue_fit};

use game::{Map, Refusal, Side, is_odd};

#[derive(Clone, Copy, Debug, PartialEq, Eq)]
pub struct Queue {
    capacity: u8,
    ghost limits: { QueueLimits capacity },
}

// What the number of a place says: whose turn it is and how many wait.
#[derive(Clone, Copy, Debug, PartialEq, Eq)]
struct Turn {
    side: Side,
    waiting: u8,
}

impl Queue {
    // The queue of this capacity, from 1 to 63.
    // Not shared with Window::new of duties: what they have in common is the one test, and that is a call of the library.
    #[tactic(auto, using(meanings::proofs::Queues::queue_says))]
    pub fn new(capacity: u8) -> Result<Queue, Refusal>
        ensures { MatchResult result
            (λ q. (q.capacity ≡ capacity) × QueueLimits capacity × QueueRule capacity (queue_graph q.capacity))
            (λ e. (e ≡ Limits) × (QueueLimits capacity → ⊥)) }
    {
        if (1..=63).contains(&capacity) {
            Ok(Queue { capacity })
        } else {
            Err(Refusal::Limits)
        }
    }

    // The turn at a place; None off the map.
    fn turn(&self, v: u8) -> Option<Turn>
        ensures on_map { IsSome result ↔ (v < queue_size self.now.capacity) }
        ensures side { IfSome result (λ turn. turn.side ≡ side_of (is_odd v)) }
        ensures waiting { IfSome result (λ turn. turn.waiting ≡ v / 2) }
    {
        let side = if is_odd(v) { Side::House } else { Side::Guest };
        let waiting = v / 2;
        (v < self.size()).then_some(Turn { side, waiting })
    }
}

impl Map for Queue {
    ghost graph = { λ q. queue_graph q.capacity };

    ghost fit = { λ q. queue_fit q.capacity q.limits };

    fn size(&self) -> u8 {
        2 * (self.capacity + 1)
    }

    fn side(&self, v: u8) -> Side {
        self.turn(v).map_or(Side::Guest, |turn| turn.side)
    }

    fn mark(&self, v: u8) -> u8 {
        match self.turn(v) {
            Some(turn) if turn.waiting == self.capacity => 1,
            Some(turn) if turn.waiting > 0 => 2,
            _ => 0,
        }
    }

    fn ways(&self, v: u8) -> u8 {
        let Some(Turn { side, waiting }) = self.turn(v) else {
            return 0;
        };
        match side {
            Side::Guest if waiting == self.capacity => 1,
            Side::House if waiting == 0 => 1,
            _ => 2,
        }
    }

    fn way(&self, v: u8, i: u8) -> u8 {
        let Some(Turn { side, waiting }) = self.turn(v) else {
            return 0;
        };
        match (side, i) {
            (Side::Guest, 0) => 2 * waiting + 1,
            (Side::Guest, 1) if waiting < self.capacity => 2 * waiting + 3,
            (Side::House, 0) => 2 * waiting,
            (Side::House, 1) if waiting > 0 => 2 * waiting - 2,
            _ => v,
        }
    }
}
