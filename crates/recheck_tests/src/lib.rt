//! Tests of the separate checker, through its call alone: texts of a small model with lines of a report behind it, what
//! is said of them, and the status. What is wanted was written down from the rules, and not from what the code answers.
#![tactic(auto)]

#[cfg(test)]
mod changes;
#[cfg(test)]
mod faults;
#[cfg(test)]
mod formulas;
#[cfg(test)]
mod rows;
#[cfg(test)]
mod saying;
