// Texts in pictures: how wide they are, how long names are cut, and how names are broken into lines.

use rcv_picture::letters::{Letters, wide, width_of};
use rcv_picture::name_lines::lines_of_name;
use rcv_picture::pixels::Pixels;
use rcv_picture::short_name::{LABEL, shortened};
use std::alloc::{AllocError, Global};
use std::test::Fail;

#[test]
fn letters_are_counted_and_not_bytes(rt: HostRuntime) -> Result<(), Fail> {
    assert!(rt; width_of(b"", Letters::Plain) == Pixels(0));
    assert!(rt; width_of(b"abc", Letters::Plain) == Pixels(21));
    assert!(rt; width_of("a…c".as_bytes(), Letters::Plain) == Pixels(21));
    assert!(rt; wide(10, Letters::Big) == Pixels(85));
    Ok(())
}

#[test]
fn long_names_are_cut(rt: HostRuntime) -> Result<(), Fail> {
    let whole = shortened(rt.alloc(), b"abcdefghijklmnop", LABEL)?;
    assert!(rt; whole.as_slice() == b"abcdefghijklmnop".as_slice());
    let cut = shortened(rt.alloc(), b"abcdefghijklmnopq", LABEL)?;
    assert!(rt; cut.as_slice() == "abcdefghij…mnopq".as_bytes());
    Ok(())
}

// The lines of a name, each with `/` after it.
fn broken(alloc: Global, name: &[u8]) -> Result<Vec<u8>, AllocError> {
    let mut text = Vec::new(alloc);
    for line in lines_of_name(alloc, name)?.as_slice() {
        text.extend_from_slice(line)?;
        text.push(b'/')?;
    }
    Ok(text)
}

#[test]
fn names_are_broken_at_their_last_seam(rt: HostRuntime) -> Result<(), Fail> {
    let whole = broken(rt.alloc(), b"storefrontDesk")?;
    assert!(rt; whole.as_slice() == b"storefrontDesk/".as_slice());
    let desk = broken(rt.alloc(), b"storefront_Desk")?;
    assert!(rt; desk.as_slice() == b"storefront_/Desk/".as_slice());
    // The last seam is after 14 letters.
    let office = broken(rt.alloc(), b"frontAndBack__office")?;
    assert!(rt; office.as_slice() == b"frontAndBack__/office/".as_slice());
    // There is no seam.
    let letters = broken(rt.alloc(), b"abcdefghijklmnopqrst")?;
    assert!(rt; letters.as_slice() == b"abcdefghijklmn/opqrst/".as_slice());
    Ok(())
}
