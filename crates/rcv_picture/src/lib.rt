// Pictures, and the text of each as SVG.
#![tactic(auto)]

ghost use Rattle.rcv_picture.specs.Laws.{TreesAreWellFormed, PicturesAreWellFormed, PicturesStandAlone};
ghost use Rattle.rcv_picture.specs.Size.{PicturesAreShort};

pub mod group;
mod groups;
pub mod letters;
pub mod look;
mod markup;
pub mod name_lines;
pub mod picture;
pub mod pixels;
pub mod shape;
mod shapes;
pub mod short_name;
mod style;
mod text;

pub use text::picture_text;
/// Memory ran out: the one error of the calls of this crate.
pub use std::alloc::AllocError as Memory;

/// What an element spells is a well-formed document, if it and all elements in it have names, and attributes with
/// distinct names.
pub fn trees_are_well_formed()
    ensures { TreesAreWellFormed }
{}

/// The text of each picture is a well-formed document.
pub fn pictures_are_well_formed()
    ensures { PicturesAreWellFormed }
{}

/// Pictures have few kinds of elements and attributes, and no script and no link among them.
pub fn pictures_stand_alone()
    ensures { PicturesStandAlone }
{}

/// The text of a picture is at most as long as so many bytes for each shape, each place of a path and each group, and
/// six times the bytes of all titles and texts.
pub fn pictures_are_short()
    ensures { PicturesAreShort }
{}
