// A picture.

use crate::group::Group;
use crate::pixels::Pixels;

/// A picture: its size, what it is called, what it shows in words, and its groups, the later ones above the earlier.
#[derive(Drop)]
pub struct Picture {
    pub width: Pixels,
    pub height: Pixels,
    pub title: Vec<u8>,
    pub description: Vec<u8>,
    pub groups: Vec<Group>,
}
