//! The words of an action.
use crate::RowFault;
use lab_base::{Kind, Name, VlanId};
use plant::Side;

/// The words of an action that are left.
#[derive(Drop)]
pub struct Words<'a> {
    rest: &'a str,
    /// The number that `#` stands for.
    nth: u32,
}

impl<'a> Words<'a> {
    pub fn new(rest: &'a str, nth: u32) -> Words<'a> {
        Words { rest, nth }
    }

    /// The next word; an empty one at the end.
    pub fn word(&mut self) -> &'a str {
        let (word, rest) = self.rest.split_once(' ').unwrap_or((self.rest, ""));
        self.rest = rest;
        word
    }

    /// All that is left.
    pub fn rest(&self) -> &'a str {
        self.rest
    }

    pub fn name(&mut self) -> Result<Name, RowFault> {
        Ok(Name::read(self.word().as_bytes())?)
    }

    pub fn number(&mut self) -> Result<u32, RowFault> {
        match self.word() {
            "#" => Ok(self.nth),
            word => Ok(word.parse()?),
        }
    }

    /// The number of a port, or of a pipe.
    pub fn short(&mut self) -> Result<u16, RowFault> {
        Ok(self.word().parse()?)
    }

    pub fn vlan(&mut self) -> Result<VlanId, RowFault> {
        Ok(VlanId(self.short()?))
    }

    pub fn side(&mut self) -> Result<Side, RowFault> {
        match self.word() {
            "A" => Ok(Side::A),
            "B" => Ok(Side::B),
            _ => Err(RowFault::Word(Kind::Word)),
        }
    }
}
