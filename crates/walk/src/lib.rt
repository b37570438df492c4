// The control walk of an executable, and its constants. Both calls make the whole check first.

#![tactic(auto)]

mod constants;
mod engine;
mod frames;
mod moves;
mod settings;
mod walking;

pub use constants::constant;
pub use walking::walk;
