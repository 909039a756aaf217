// The duties that we build, behind the questions of game::Duty.
#![tactic(auto)]

mod window;

pub use window::Window;
