// One line on what came of a lab over another one.
use crate::obstacle::Obstacle;
use crate::sides::Carried;
use lab_base::{Memory, Name, Text};
use plant::Side;
use std::alloc::Global;
use virt_topo::Broken;

fn rule_word(rule: Broken) -> &'static [u8] {
    match rule {
        Broken::F1 => b"F1",
        Broken::F2 => b"F2",
        Broken::F3 => b"F3",
        Broken::F4 => b"F4",
        Broken::F5 => b"F5",
        Broken::F6 => b"F6",
        Broken::F7 => b"F7",
        Broken::F8 => b"F8",
    }
}

fn push_link(text: &mut Text, link: &Option<Name>) -> Result<(), Memory> {
    match link {
        Some(link) => {
            text.push(b' ')?;
            text.push_bytes(link.bytes())
        }
        None => Ok(()),
    }
}

fn push_obstacle(text: &mut Text, obstacle: &Obstacle) -> Result<(), Memory> {
    match obstacle {
        Obstacle::Moves => text.push_bytes(b"moves"),
        Obstacle::Place(kind, line) => {
            text.push_bytes(kind.word().as_bytes())?;
            text.push(b' ')?;
            text.push_bytes(line.bytes())
        }
        Obstacle::Rule(rule, name) => {
            text.push_bytes(rule_word(*rule))?;
            text.push(b' ')?;
            text.push_bytes(name.bytes())
        }
        Obstacle::Id(tag) => {
            text.push_bytes(b"vlan ")?;
            text.push_number(tag.0 as u64)
        }
        Obstacle::Cable(link) => {
            text.push_bytes(b"cable")?;
            push_link(text, link)
        }
        Obstacle::Other => text.push_bytes(b"another"),
    }
}

fn push_name(text: &mut Text, exp: &Option<Name>) -> Result<(), Memory> {
    match exp {
        Some(exp) => {
            text.push_bytes(exp.bytes())?;
            text.push(b' ')
        }
        None => Ok(()),
    }
}

/// One line on what came of it.
pub fn told(alloc: Global, carried: &Carried) -> Result<Text, Memory> {
    let mut text = Text::new(alloc);
    match carried {
        Carried::Side(_, count) => {
            text.push_bytes(b"grown ")?;
            text.push_number(*count as u64)?;
        }
        Carried::NoLab => text.push_bytes(b"no lab")?,
        Carried::Bad(side, at) => {
            text.push_bytes(match side {
                Side::A => b"bad journal A ",
                Side::B => b"bad journal B ",
            })?;
            text.push_number(*at)?;
        }
        Carried::Faulty(fault) => {
            text.push_bytes(b"bad ")?;
            text.push_number(fault.line as u64)?;
            text.push(b' ')?;
            text.push_bytes(fault.kind.word().as_bytes())?;
        }
        Carried::Refused(exp, obstacle) => {
            text.push_bytes(b"refused ")?;
            push_name(&mut text, exp)?;
            push_obstacle(&mut text, obstacle)?;
        }
    }
    text.push(b'\n')?;
    Ok(text)
}
