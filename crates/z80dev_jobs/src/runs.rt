//! The commands that run a program: `run`, `play` and `debug`.

mod debugging;
mod input;
mod jobs;
mod playing;
mod running;
mod telling;

pub use debugging::debug_job;
pub use jobs::run_job;
pub use playing::play_job;
