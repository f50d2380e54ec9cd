//! Whole plays over memory, by what they print: tests that cross all crates. They are all that there is: the program does
//! nothing.
#![tactic(auto)]

#[cfg(test)]
mod meeting;
#[cfg(test)]
mod setting;
#[cfg(test)]
mod tests;

#[cfg(test)]
use setting::Setting;

fn main() {}
