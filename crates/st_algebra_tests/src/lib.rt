//! What no clause says of changes and steps, their normal form, registers and rows: each public call once with ample
//! memory, and answers that were worked out by hand.
#![tactic(auto)]

#[cfg(test)]
mod marks;
#[cfg(test)]
mod normal;
#[cfg(test)]
mod registers;
#[cfg(test)]
mod row_kind;
#[cfg(test)]
mod rows;
