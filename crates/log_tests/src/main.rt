//! Log records, and logs as they are read, merged and searched, by their bytes: tests of library crates, which would be proved
//! twice if their tests stood in them. They are all that there is: the program does nothing.
#![tactic(auto)]

#[cfg(test)]
mod blocks;
#[cfg(test)]
mod checkpoints;
#[cfg(test)]
mod disks;
#[cfg(test)]
mod ends;
#[cfg(test)]
mod heads;
#[cfg(test)]
mod merging;
#[cfg(test)]
mod parts;
#[cfg(test)]
mod records;
#[cfg(test)]
mod redone;
#[cfg(test)]
mod volumes;

fn main() {}
