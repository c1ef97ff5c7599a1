// The text in which it is told why an operation doesn't go on: a line for each reason, in the words of the manuals.

mod lines;
mod texts;

pub use lines::put_reason;
pub use texts::why_text;
