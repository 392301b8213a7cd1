//! A plant in memory, which tells its trace and takes drills.
#![tactic(auto)]

mod boot_step;
mod call_end;
mod mem;
mod mem_disk;
mod mem_lab;
mod mem_plant;
mod mem_readings;
mod mem_side;
mod mem_tables;
mod node_rows;
mod node_table;
mod nodes;
mod past;
mod pipes;
mod plans;
mod row_table;
mod rows;
mod stops;

pub use mem::MemLab;
pub use mem_side::MemSide;
