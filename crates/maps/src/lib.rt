// The maps that we build, behind the questions of game::Map.
#![tactic(auto)]

mod queue;

pub use queue::Queue;
