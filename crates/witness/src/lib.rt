// The judgement of a witness for a box of rates, corner by corner, in whole numbers.

#![tactic(auto)]

mod chances;
mod claim;
mod corner;
pub mod judge;
mod lowest;
mod numbers;
pub mod region;
mod row_at;
mod rows;
mod told;
mod value;
