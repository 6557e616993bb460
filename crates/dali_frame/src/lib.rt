//! Forward frames and answers of a DALI bus (IEC 62386-102): the words that spell frames, and the
//! text lines that carry both.
//!
//! A forward frame has sixteen bits, an address byte and a second byte. A backward frame, the
//! answer, has eight. No call takes memory.
//!
//! A crate of its own: words and lines of frames are used by all, and depend on nothing.
#![tactic(auto)]

pub use fault::LineFault;
pub use forward::{Frame, frame_of, word_of};
pub use line::{answer_of, byte_digits, line_of};

mod fault;
mod forward;
mod line;
