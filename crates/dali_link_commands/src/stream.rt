//! Orders that come line by line (profile): a stream gives one object of JSON a line, and each line yields an order
//! with its moment, or the line that says why it is refused.

mod fault;
mod judging;
mod line_buffer;
mod order_lines;
mod reading;

pub use line_buffer::LINE_LIMIT;
pub use order_lines::OrderLines;
