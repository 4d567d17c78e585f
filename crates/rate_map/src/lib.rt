// The map: boxes of rates over a chain, cut and judged, and what stands behind every verdict.

#![tactic(auto)]

pub mod call;
mod laid;
pub mod map;
pub mod run;
mod table;
