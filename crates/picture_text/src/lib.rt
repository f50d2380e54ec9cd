//! A picture of a run as shapes, and its one spelling as SVG.
#![tactic(auto)]

mod picture;
mod spell;
mod write;

pub use picture::{Kind, Picture, Shape, ShapeList, Spot};
pub use write::write_picture;
