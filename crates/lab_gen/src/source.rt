ghost use Rattle.std.specs.Prelude.{◌≡◌, ◌≤◌, length};

use lab_base::Text;
use lab_io::{Failed, Source};

/// A text as a source, which never fails.
#[derive(Drop)]
pub struct TextSource {
    text: Text,
    at: usize,
    ghost within: { at ≤ length text },
}

impl TextSource {
    ghost use Rattle.lab_gen.specs.Sources.{left_of};

    /// The source of that text.
    pub fn new(text: Text) -> TextSource
        ensures { left_of result ≡ text }
    {
        TextSource { text, at: 0 }
    }
}

impl Source for TextSource {
    ghost use Rattle.std.specs.Prelude.{◌≡◌, ◌<◌, length, Some, Ok};
    ghost use Rattle.lab_gen.specs.Sources.{left_of};

    ghost left = { λ s. Some (left_of s) };

    ghost faults = { λ s. 0 };

    fn read(&mut self, into: &mut [u8]) -> Result<usize, Failed> {
        let n = into.len().min(self.text.len() - self.at);
        into[..n].copy_from_slice(&self.text.bytes()[self.at..self.at + n]);
        self.at += n;
        Ok(n)
    }
}
