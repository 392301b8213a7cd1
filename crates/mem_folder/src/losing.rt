// Losses of power.
ghost use Rattle.std.specs.Prelude.{◌≡◌, ◌≤◌, ◌∷◌, [], IfOk, drop, length, take};
ghost use Rattle.folder.specs.Files.{text_in};
ghost use Rattle.mem_folder.specs.Losses.{IsLoss};
ghost use Rattle.mem_folder.specs.MemTold.{held_of};

use crate::mem_folder::{MemFolder, OldText};
use crate::texts::{Texts, copied};
use lab_base::Memory;
use plant::{Pick, Step};
use std::alloc::Global;

/// The text that stands so many after the newest one.
fn text_back(newest: OldText, olds: Vec<OldText>, back: usize) -> OldText
    requires { back ≤ length olds.items }
    ensures back { take 1 (drop back (newest ∷ olds.items)) ≡ result ∷ [] }
    ensures newest { back ≡ 0 → result ≡ newest }
{
    let mut olds = olds;
    if back == 0 {
        newest
    } else {
        olds.swap_remove(back - 1)
    }
}

/// The files of a text that is left: those that are there for the newest one, as after a kill, and else a newer one that was not written whole.
fn texts_left(alloc: Global, texts: Texts, left: Vec<u8>, back: usize) -> Result<Texts, Memory>
    requires { back ≡ 0 → text_in texts ≡ left.items }
    ensures { IfOk result (λ kept. text_in kept ≡ left.items) }
{
    if back == 0 {
        Ok(texts)
    } else {
        Texts::after_loss(alloc, left)
    }
}

impl MemFolder {
    /// Loses power, and is started again. Of what was not synced on the sides the pick leaves some. The text that is left stands so many after
    /// the newest one.
    pub fn lose(self, pick: Pick, back: usize) -> Result<MemFolder, Memory>
        requires { back ≤ length (held_of self).older }
        ensures { IfOk result (λ folder. IsLoss pick back (held_of self) (held_of folder)) }
    {
        let alloc = self.alloc;
        let mut sides = self.sides;
        sides.restore(pick)?;
        let newest = OldText {
            text: copied(alloc, self.texts.text())?,
            steps: self.steps,
        };
        let left = text_back(newest, self.olds, back);
        let step = Step::Restarted {
            a: (0, 0),
            b: (0, 0),
        };
        let steps = left.steps.and(&step, &sides);
        let texts = texts_left(alloc, self.texts, left.text, back)?;
        Ok(MemFolder {
            alloc,
            sides,
            texts,
            olds: Vec::new(alloc),
            steps,
            marks: self.marks,
            stop: None,
            stopped: false,
        })
    }
}
