// Tests of the map on worked examples: what its calls answer, and what it shows after them.

#![tactic(auto)]

#[cfg(test)]
mod changes;
#[cfg(test)]
mod refusals;
#[cfg(test)]
mod runs;
#[cfg(test)]
mod shown;
