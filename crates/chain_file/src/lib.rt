// Chain files, opened by reference, and the chain that a file stores.

#![tactic(auto)]

mod check;
mod contents;
mod numbers;
mod part;
mod row;
pub mod stored;
mod sums;
#[cfg(test)]
mod tests;
