//! Fates, the histories of transactions, the text of reports and their check against the logs: tests of library crates, which
//! would be proved twice if their tests stood in them. They are all that there is: the program does nothing.
#![tactic(auto)]

#[cfg(test)]
mod checked;
#[cfg(test)]
mod fates;
#[cfg(test)]
mod histories;
#[cfg(test)]
mod lines;
#[cfg(test)]
mod trans;

fn main() {}
