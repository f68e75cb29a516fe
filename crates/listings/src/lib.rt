//! What the commands `count` and `sample` need beside a search: the line of counts of a basis, and the bases that a
//! number leads to (docs/FORMATS.md, "Command words").
#![tactic(auto)]

mod count;
mod draw;

pub use count::count_line;
pub use draw::draw_bases;

#[cfg(test)]
mod tests;
