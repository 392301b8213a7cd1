//! Commands that were sent to devices, and rows.
use crate::texts::Texts;
use lab_base::{Boot, Items, Kind, Name, Rates, VlanId, fields_in, name_in};
use line_text::name_at;
use plain_model::Sent;
use plant::{Answer, DeviceOp, Fault};
use row_words::{RowFault, number_at, pair_of, parts_of};
use std::alloc::Global;
use std::str;
use swap_plan::Port;

/// A Join or a Leave.
fn port_op(joins: bool, switch: Name, parts: &[&[u8]]) -> Result<DeviceOp, RowFault> {
    let port = number_at(parts, 1)?;
    let vlan = VlanId(number_at(parts, 2)?);
    Ok(if joins {
        DeviceOp::Join { switch, port, vlan }
    } else {
        DeviceOp::Leave { switch, port, vlan }
    })
}

/// A Shape of a pipe from `e0` to `e1`, by its number and its kbps there; 1,000 back.
fn shape_op(node: Name, parts: &[&[u8]]) -> Result<DeviceOp, RowFault> {
    let rates = Rates {
        kbps: 1_000,
        micros: 0,
        ppm: 0,
    };
    Ok(DeviceOp::Shape {
        node,
        pipe: number_at(parts, 1)?,
        from: name_in(b"e0")?,
        to: name_in(b"e1")?,
        there: Rates {
            kbps: u64::from(number_at(parts, 2)?),
            ..rates
        },
        back: rates,
    })
}

/// The command of a word and the parts after it. A node that is `up`, or is `lost`, was polled.
fn op_of(verb: &str, parts: &[&[u8]]) -> Result<DeviceOp, RowFault> {
    let node = name_at(parts, 0)?;
    match verb {
        "join" => port_op(true, node, parts),
        "leave" => port_op(false, node, parts),
        "shape" => shape_op(node, parts),
        "load" => Ok(DeviceOp::Load {
            node,
            os: name_at(parts, 1)?,
        }),
        "boot" => Ok(DeviceOp::Boot { node }),
        "up" | "lost" => Ok(DeviceOp::Poll { node }),
        "wipe" => Ok(DeviceOp::Wipe { node }),
        _ => Err(RowFault::Word(Kind::Command)),
    }
}

/// The answer to such a command.
fn answer_to(verb: &str) -> Result<Answer, Fault> {
    match verb {
        "up" => Ok(Answer::State(Boot::IsUp)),
        "lost" => Err(Fault::Failed),
        _ => Ok(Answer::Done),
    }
}

/// A command that was sent, and perhaps applied.
fn sent_of(alloc: Global, word: &[u8], applied: bool) -> Result<Sent, RowFault> {
    let pair = pair_of(word)?;
    let verb = str::from_utf8(pair.before).unwrap_or("");
    let parts = parts_of(alloc, pair.behind)?;
    let op = op_of(verb, &parts)?;
    let answer = answer_to(verb);
    Ok(Sent {
        op,
        applied,
        answer,
    })
}

/// Adds the command of a word. One after a `!` was not applied.
fn add_step(alloc: Global, sent: &mut Items<Sent>, word: &[u8]) -> Result<(), RowFault> {
    // the checker wants each type that a moved value holds to be named
    let _op: Option<DeviceOp> = None;
    let step = match word.split_first() {
        Some((b'!', word)) => sent_of(alloc, word, false)?,
        _ => sent_of(alloc, word, true)?,
    };
    sent.push(step)?;
    Ok(())
}

fn add_steps(alloc: Global, sent: &mut Items<Sent>, words: &[&[u8]]) -> Result<(), RowFault> {
    for word in words {
        add_step(alloc, sent, word)?;
    }
    Ok(())
}

/// The commands of words, each a command or the name of a text of some.
pub fn steps_of(alloc: Global, texts: &Texts, words: &[&[u8]]) -> Result<Items<Sent>, RowFault> {
    let mut sent = Items::new(alloc);
    for word in words {
        match texts.get(word) {
            Some(text) => add_steps(alloc, &mut sent, &fields_in(alloc, text)?)?,
            None => add_step(alloc, &mut sent, word)?,
        }
    }
    Ok(sent)
}

/// The commands of words, whether they are applied or not.
pub fn ops_of(alloc: Global, texts: &Texts, words: &[&[u8]]) -> Result<Items<DeviceOp>, RowFault> {
    let sent = steps_of(alloc, texts, words)?;
    let mut ops = Items::new(alloc);
    for step in sent.as_slice() {
        ops.push(step.op)?;
    }
    Ok(ops)
}

/// The row that parts say: a switch, a port and a VLAN id.
pub fn row_of(parts: &[&[u8]]) -> Result<Port, RowFault> {
    Ok(Port {
        switch: name_at(parts, 0)?,
        port: number_at(parts, 1)?,
        vlan: VlanId(number_at(parts, 2)?),
    })
}
