//! Tests of the fields, the algebras, the sheet reader and the expansion, apart from their crates so that these are proved once.
#![tactic(auto)]

#[cfg(test)]
mod algebras;
#[cfg(test)]
mod expansion;
#[cfg(test)]
mod fields;
#[cfg(test)]
mod sheets;
