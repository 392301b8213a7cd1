//! The picture of a lab as an SVG text, where it is known where everything stands: each machine in the colour of the experiment that
//! holds it, each trunk as red as it is full, and lists of the VLAN ids and the experiments.
#![tactic(auto)]

mod bars;
mod frame;
mod geometry;
mod lists;
mod machines;
mod picture;
mod shapes;
mod speeds;
mod switches;
mod tags;
mod trunks;

pub use frame::{KEY, STYLE};
pub use geometry::{Bend, Bounds, Card, Echo, Geometry, Label, Line, Point, Way};
pub use picture::draw;
pub use speeds::thousandths;
