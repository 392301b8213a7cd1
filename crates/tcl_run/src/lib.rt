//! Interpreters of a Tcl subset: texts over a host, one on top of another.
#![tactic(auto)]

mod interp;

pub use interp::Interp;
