// Texts that are put together from pieces.

ghost use Rattle.std.specs.Prelude.{◌≡◌, ◌++◌, IfOk, OnOk};
ghost use Rattle.rcv_scene.specs.Wording.{piece_text, pieces_text};

use rcv_text::writer::Writer;
use std::alloc::{AllocError, Global};

/// A part of a text.
#[derive(Clone, Copy)]
pub enum Piece<'a> {
    Word(&'a [u8]),
    Number(u32),
    /// The number of the entry at this place, counted from 1.
    Place(u32),
    Count(usize),
    Value(i64),
}

// Puts a piece at the end of a text.
fn put_piece(text: &mut Writer, piece: &Piece<'_>) -> Result<(), AllocError>
    ensures { OnOk result (text.new ≡ text.old ++ piece_text piece.now) }
{
    match piece {
        Piece::Word(word) => text.word(word),
        Piece::Number(number) => text.large_number(u64::from(*number)),
        Piece::Place(place) => text.large_number(u64::from(*place) + 1),
        Piece::Count(count) => text.large_number(*count as u64),
        Piece::Value(value) => text.signed_number(*value),
    }
}

/// The text of these pieces. Fails if memory runs out.
pub fn text_of(alloc: Global, pieces: &[Piece<'_>]) -> Result<Vec<u8>, AllocError>
    ensures { IfOk result (λ text. text.items ≡ pieces_text pieces.now) }
{
    let mut text = Writer::with_room(alloc, 16)?;
    for piece in pieces {
        put_piece(&mut text, piece)?;
    }
    Ok(text.finish())
}
