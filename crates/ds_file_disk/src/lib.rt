//! A disk of files: the edge where pages and logs meet the file system.
#![tactic(auto)]

mod disk;
mod files;
mod health;
mod logs;
mod names;

pub use disk::FileDisk;

#[cfg(test)]
mod tests;
