//! The clauses of the check of a disk, on small logs and pages: tests of library crates, which would be proved twice if their
//! tests stood in them. They are all that there is: the program does nothing.
#![tactic(auto)]

#[cfg(test)]
mod blanks;
#[cfg(test)]
mod disks;
#[cfg(test)]
mod fronts;
#[cfg(test)]
mod records;
#[cfg(test)]
mod spots;
#[cfg(test)]
mod tables;
#[cfg(test)]
mod torn;
#[cfg(test)]
mod turns;
#[cfg(test)]
mod unplaced;

fn main() {}
