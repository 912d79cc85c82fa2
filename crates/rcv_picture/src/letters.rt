// How wide texts are: all letters of a kind are equally wide.

use crate::pixels::Pixels;

/// The kinds of letters.
#[derive(Clone, Copy, Debug, PartialEq, Eq)]
pub enum Letters {
    Plain,
    Small,
    Bold,
    Head,
    Big,
}

impl Letters {
    // The width of ten letters.
    fn ten_wide(self) -> u32 {
        match self {
            Letters::Plain => 67,
            Letters::Small => 59,
            Letters::Bold => 69,
            Letters::Head => 74,
            Letters::Big => 85,
        }
    }
}

/// How wide so many letters are at most.
pub fn wide(letters: usize, kind: Letters) -> Pixels {
    let ten_times = Pixels::of(letters) * kind.ten_wide() + Pixels(9);
    Pixels(ten_times.0 / 10)
}

/// How wide a text in UTF-8 is at most.
pub fn width_of(text: &[u8], kind: Letters) -> Pixels {
    // Bytes from 128 to 191 only go on with a letter.
    let letters = text
        .iter()
        .filter(|byte| **byte < 128 || 192 <= **byte)
        .count();
    wide(letters, kind)
}
