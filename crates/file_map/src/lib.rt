//! A picture of a document file: what lies on its pages, and in its heaps, as text or as SVG.
#![tactic(auto)]

mod bars;
mod colours;
mod drawing;
mod fault;
mod heaps;
mod lines;
mod pages;
mod part;
mod reading;
mod rows;
mod svg;
mod tables;
mod walk;

pub use drawing::{draw_svg, draw_text};
pub use fault::MapFault;
