//! Rows and pipes of a world, and whether it is isolated.
use crate::reading::lab_of;
use crate::steps::row_of;
use crate::texts::Texts;
use lab_base::{Items, Kind, Text, fields_in};
use line_text::{field_at, fields_after, name_at};
use plain_model::{Owner, PipeEnds, Wanted, is_isolated};
use row_words::{RowFault, parts_of, push_answer};
use std::alloc::Global;
use swap_plan::Port;

/// A world by its rows and pipes, with the rows that mappings want.
#[derive(Drop)]
struct World {
    wanted: Items<Wanted>,
    rows: Items<Port>,
    pipes: Items<PipeEnds>,
}

/// The row that parts say: an experiment, `new` or `old` for its mapping, the link, and the row.
fn wanted_of(parts: &[&[u8]]) -> Result<Wanted, RowFault> {
    let owner = Owner {
        exp: name_at(parts, 0)?,
        new: field_at(parts, 1).first() == Some(&b'n'),
        link: name_at(parts, 2)?,
    };
    let row = row_of(&[field_at(parts, 3), field_at(parts, 4), field_at(parts, 5)])?;
    Ok(Wanted { row, owner })
}

/// The pipe that parts say after a word: a node, and two of its interfaces.
fn pipe_of(parts: &[&[u8]]) -> Result<PipeEnds, RowFault> {
    Ok(PipeEnds {
        node: name_at(parts, 1)?,
        from: name_at(parts, 2)?,
        to: name_at(parts, 3)?,
    })
}

/// Adds what a word says: a row has three parts, a pipe four, and a row that a mapping wants six.
fn add(alloc: Global, world: &mut World, word: &[u8]) -> Result<(), RowFault> {
    let parts = parts_of(alloc, word)?;
    match parts.len() {
        3 => world.rows.push(row_of(&parts)?)?,
        4 => world.pipes.push(pipe_of(&parts)?)?,
        6 => world.wanted.push(wanted_of(&parts)?)?,
        _ => return Err(RowFault::Word(Kind::Fields)),
    }
    Ok(())
}

fn add_all(alloc: Global, world: &mut World, words: &[&[u8]]) -> Result<(), RowFault> {
    for word in words {
        add(alloc, world, word)?;
    }
    Ok(())
}

/// The world that the words of a text say, and further ones.
fn world_of(alloc: Global, first: &[u8], words: &[&[u8]]) -> Result<World, RowFault> {
    let mut world = World {
        wanted: Items::new(alloc),
        rows: Items::new(alloc),
        pipes: Items::new(alloc),
    };
    let first = fields_in(alloc, first)?;
    add_all(alloc, &mut world, &first)?;
    add_all(alloc, &mut world, words)?;
    Ok(world)
}

/// Whether a world of the lab of that name is isolated.
fn is_one(alloc: Global, texts: &Texts, lab: &[u8], world: &World) -> Result<bool, RowFault> {
    let lab = lab_of(alloc, texts, lab)?;
    let isolated = is_isolated(
        &lab,
        world.wanted.as_slice(),
        world.rows.as_slice(),
        world.pipes.as_slice(),
    );
    drop(lab);
    Ok(isolated)
}

/// Whether a world is isolated, which a text says and further words.
pub fn add_output(
    out: &mut Text,
    alloc: Global,
    texts: &Texts,
    words: &[&[u8]],
) -> Result<(), RowFault> {
    if words.len() < 2 {
        return Err(RowFault::Word(Kind::Fields));
    }
    let world = world_of(alloc, texts.of(words[1])?, fields_after(words, 2))?;
    let isolated = is_one(alloc, texts, words[0], &world);
    drop(world);
    Ok(push_answer(out, isolated?)?)
}
