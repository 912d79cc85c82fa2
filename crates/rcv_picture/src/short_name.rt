// Names that are made to fit.

ghost use Rattle.std.specs.Prelude.{◌≡◌, ◌<◌, ◌≤◌, length, IfOk};
ghost use Rattle.rcv_picture.specs.Names.{cut_words, IsCut, IsShortened};

use std::alloc::{AllocError, Global};

/// A label of more letters is shortened, and stands at the foot in full.
pub const LABEL: usize = 16;

// The front and the end of a name, and `…` between.
fn cut_text(alloc: Global, front: &[u8], back: &[u8]) -> Result<Vec<u8>, AllocError>
    ensures { IfOk result (λ text. text.items ≡ cut_words front.now back.now) }
{
    let mut text = Vec::from_slice(alloc, front)?;
    text.extend_from_slice(b"\xe2\x80\xa6")?;
    text.extend_from_slice(back)?;
    Ok(text)
}

// A longer name, cut to so many letters.
fn cut_name(alloc: Global, name: &[u8], most: usize) -> Result<Vec<u8>, AllocError>
    requires some { 1 ≤ most }
    requires longer { most < length name.now }
    ensures { IfOk result (λ text. IsCut most name.now text.items) }
{
    let last = most / 3;
    let (front, rest) = name.split_at(most - 1 - last);
    let (_, back) = rest.split_at(rest.len() - last);
    let text = cut_text(alloc, front, back)?;
    Ok(text)
}

/// A name as it is, if it has at most so many letters; else its beginning and its end. Fails if memory runs out.
#[tactic(auto, using(crate::proofs::Naming::name_fits, crate::proofs::Naming::name_is_cut))]
pub fn shortened(alloc: Global, name: &[u8], most: usize) -> Result<Vec<u8>, AllocError>
    requires { 1 ≤ most }
    ensures { IfOk result (λ text. IsShortened most name.now text.items) }
{
    if name.len() <= most {
        let whole = Vec::from_slice(alloc, name)?;
        return Ok(whole);
    }
    let cut = cut_name(alloc, name, most)?;
    Ok(cut)
}
