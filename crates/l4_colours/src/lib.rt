//! Lines of output, painted for a terminal.
//!
//! A line is painted by its words: in red what is stuck for ever, in yellow what fails or waits in
//! a circle, in green what is delivered. All else is left as it is. `PaintedOutput` is a sink of
//! `l4_streams`: what a job comes to is put into it, and it hands the painted lines on. It takes no
//! memory for them. Where it paints nothing, it hands on the very bytes.
//!
//! ```rust
//! let has_colours = is_painted(&asked, output);
//! let mut out = PaintedOutput::new(alloc, rt.stdout(), has_colours);
//! out.put(b"deadlock 1.1 2.1\n"); // "\x1b[31mdeadlock 1.1 2.1\x1b[0m\n"
//! ```
#![tactic(auto)]

pub mod laws;
pub mod outputs;
mod painting;
pub mod tones;
