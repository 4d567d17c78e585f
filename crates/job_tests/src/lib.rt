// Scripts and files through the call that the program makes, and what is printed for them.

#![tactic(auto)]

#[cfg(test)]
mod forms;
#[cfg(test)]
mod jobs;
#[cfg(test)]
mod prints;
