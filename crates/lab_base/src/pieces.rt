//! The pieces of a text.

ghost use Rattle.std.specs.Prelude.{◌≡◌, ◌++◌, IfOk, OnOk};
ghost use Rattle.std.specs.List.{flat_map};
ghost use Rattle.lab_base.specs.Pieces.{piece_bytes};

use crate::{Memory, Text};
use std::alloc::Global;

/// A piece of a text: bytes, or the decimal digits of a number.
#[derive(Clone, Copy)]
pub enum Piece<'a> {
    Bytes(&'a [u8]),
    Number(u64),
}

fn push_piece(text: &mut Text, piece: &Piece<'_>) -> Result<(), Memory>
    ensures { OnOk result (text.new ≡ text.old ++ piece_bytes piece.now) }
{
    match *piece {
        Piece::Bytes(bytes) => text.push_bytes(bytes),
        Piece::Number(number) => text.push_number(number),
    }
}

/// Adds pieces to a text, one after another.
pub fn push_pieces(text: &mut Text, pieces: &[Piece<'_>]) -> Result<(), Memory>
    ensures { OnOk result (text.new ≡ text.old ++ flat_map piece_bytes pieces.now) }
{
    for piece in pieces {
        push_piece(text, piece)?;
    }
    Ok(())
}

/// The text of pieces, one after another.
pub fn text_of_pieces(alloc: Global, pieces: &[Piece<'_>]) -> Result<Text, Memory>
    ensures { IfOk result (λ text. text ≡ flat_map piece_bytes pieces.now) }
{
    let mut text = Text::new(alloc);
    push_pieces(&mut text, pieces)?;
    Ok(text)
}
