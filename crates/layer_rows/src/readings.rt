//! Readings of what devices hold.
use crate::answers::{boot_word, letters};
use lab_base::VlanId;
use plant::{NodeRow, PipeRow, ReadFailed, Tables};
use row_words::{RowFault, Words};
use std::alloc::AllocError;
use std::fmt::Write;

fn push_row(
    out: &mut String,
    read: Result<Option<(u16, VlanId)>, ReadFailed>,
) -> Result<(), AllocError> {
    match read {
        Ok(Some(row)) => write!(out, "{} {}", row.0, row.1.0),
        Ok(None) => out.push_str("none"),
        Err(_) => out.push_str("unread"),
    }
}

fn push_node(out: &mut String, read: Result<NodeRow, ReadFailed>) -> Result<(), AllocError> {
    match read {
        Ok(row) => write!(out, "{} {}", boot_word(row.state), row.pipes),
        Err(_) => out.push_str("unread"),
    }
}

fn push_os(out: &mut String, read: Result<NodeRow, ReadFailed>) -> Result<(), AllocError> {
    match read {
        Ok(row) => out.push_str(row.os.as_ref().map_or("none", letters)),
        Err(_) => out.push_str("unread"),
    }
}

fn push_pipe(
    out: &mut String,
    read: Result<Option<PipeRow>, ReadFailed>,
) -> Result<(), AllocError> {
    match read {
        Ok(Some(pipe)) => write!(
            out,
            "{} {} {}",
            pipe.pipe,
            letters(&pipe.from),
            pipe.there.kbps
        ),
        Ok(None) => out.push_str("none"),
        Err(_) => out.push_str("unread"),
    }
}

/// Does a reading, and adds what it tells, if it is one.
pub fn told<P: Tables>(
    out: &mut String,
    plant: &mut P,
    kind: &str,
    words: &mut Words<'_>,
) -> Result<bool, RowFault> {
    match kind {
        "read-row" => {
            let switch = words.name()?;
            push_row(out, plant.row(switch, words.number()?))?;
        }
        "read-node" => push_node(out, plant.node(words.name()?))?,
        "read-os" => push_os(out, plant.node(words.name()?))?,
        "read-pipe" => {
            let node = words.name()?;
            push_pipe(out, plant.pipe(node, words.short()?))?;
        }
        _ => return Ok(false),
    }
    Ok(true)
}
