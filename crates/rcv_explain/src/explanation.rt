// What a code says.

ghost use Rattle.std.specs.Prelude.{◌≡◌, IfOk};
ghost use Rattle.rcv_explain.specs.Explained.{spelled};

use rcv_text::writer::Writer;
use std::alloc::{AllocError, Global};

/// What a code says. Its parts are pieces of Markdown, which docs/LANGUAGE.md has word for word.
#[derive(Clone, Copy, Debug, PartialEq, Eq)]
pub struct Explanation {
    /// The name that stands after the code in a refusal's line.
    pub name: &'static [u8],
    /// The rule: a sentence or two in lines of at most 120 columns, without the last line end.
    pub rule: &'static [u8],
    /// An input that breaks it, or words with the input after them, in lines that four spaces indent.
    pub example: &'static [u8],
    /// The refusal's line for it, without the line end.
    pub refusal: &'static [u8],
    /// What to do, in lines like those of the rule.
    pub repair: &'static [u8],
    /// The example as it is taken, in lines like those of the example.
    pub repaired: &'static [u8],
}

impl Explanation {
    /// The explanation as text, with its code in front. Fails if memory runs out.
    pub fn text(&self, alloc: Global, code: u8) -> Result<Vec<u8>, AllocError>
        ensures { IfOk result (λ text. text.items ≡ spelled code self.now) }
    {
        let mut text = Writer::new(alloc);
        text.number(code as u16)?;
        text.word(b" ")?;
        text.word(self.name)?;
        text.word(b"\n\n")?;
        text.word(self.rule)?;
        text.word(b"\n\n")?;
        text.word(self.example)?;
        text.word(b"\n")?;
        text.word(b"    ")?;
        text.word(self.refusal)?;
        text.word(b"\n\n")?;
        text.word(b"Repair: ")?;
        text.word(self.repair)?;
        text.word(b"\n\n")?;
        text.word(self.repaired)?;
        Ok(text.finish())
    }
}
