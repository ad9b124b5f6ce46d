// Rows of the text for spreadsheets: one row, the name of an entry's kind, and the rows of a history.

#![tactic(auto, using(decimal_text::proofs::Appending::appending))]

pub mod history;
pub mod kind;
pub mod row;
