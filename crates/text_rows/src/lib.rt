//! Rows of texts and records: what the readers of recipes and records take, and which octets and
//! lines are made of records, reports, explanations, answers, certificates and packages.
//!
//! The crate has nothing but tests, and nothing stands above it: so `module_record`, `report_text`,
//! `explain_text`, `packager`, `receipt_writer`, `answer_write` and `recipe_text` are proved once, and
//! a new row proves no older code again. What is proved of these calls for every value stands in those crates
//! and in the crates below them; the rows say what no clause can: texts worked by hand from the
//! standards, and that with ample memory they are made.
//!
//! A row is one call of a small function. `packages` and `whole_answers` sign with the first leaf of a
//! new board, which is `edge_board`'s board in memory that never fails.
#![tactic(auto)]

#[cfg(test)]
mod answers;
#[cfg(test)]
mod explanations;
#[cfg(test)]
mod identifier_lines;
#[cfg(test)]
mod key_recipes;
#[cfg(test)]
mod key_records;
#[cfg(test)]
mod module_recipes;
#[cfg(test)]
mod module_records;
#[cfg(test)]
mod packages;
#[cfg(test)]
mod plans;
#[cfg(test)]
mod rehearsal_lines;
#[cfg(test)]
mod state_lines;
#[cfg(test)]
mod whole_answers;
