// A text over a sink in memory that takes small pieces and fails at a chosen call.
use super::Page;
use rcv_io::{MemSink, WriteFault};
use std::test::Fail;

#[test]
fn small_pieces_make_the_whole_text(rt: HostRuntime) -> Result<(), Fail> {
    let mut sink = MemSink::new(rt.alloc(), 16, Vec::new(rt.alloc()), 64)?;
    let mut page = Page::new(rt.alloc())?;
    page.word(&mut sink, b"send A ");
    page.number(&mut sink, 7);
    page.byte(&mut sink, b' ');
    page.number(&mut sink, 42);
    page.word(&mut sink, b" @");
    page.signed_number(&mut sink, -1234);
    page.byte(&mut sink, b'\n');
    assert_eq!(rt; sink.written(), b"".as_slice());
    assert_eq!(rt; page.finish(&mut sink), Ok(()));
    assert_eq!(rt; sink.written(), b"send A 7 42 @-1234\n".as_slice());
    Ok(())
}

#[test]
fn a_full_page_is_written(rt: HostRuntime) -> Result<(), Fail> {
    let mut sink = MemSink::new(rt.alloc(), 40_000, Vec::new(rt.alloc()), 200_000)?;
    let mut page = Page::new(rt.alloc())?;
    for _ in 0..65_535_u32 {
        page.byte(&mut sink, b'a');
    }
    page.byte(&mut sink, b'b');
    assert_eq!(rt; sink.written().len(), 0);
    page.byte(&mut sink, b'c');
    assert_eq!(rt; sink.written().len(), 65_536);
    assert_eq!(rt; page.finish(&mut sink), Ok(()));
    assert_eq!(rt; sink.written().len(), 65_537);
    assert_eq!(rt; &sink.written()[65_534..], b"abc".as_slice());
    Ok(())
}

#[test]
fn behind_a_failed_call_nothing_is_written(rt: HostRuntime) -> Result<(), Fail> {
    let failing = Vec::from_slice(rt.alloc(), &[2])?;
    let mut sink = MemSink::new(rt.alloc(), 16, failing, 200_000)?;
    let mut page = Page::new(rt.alloc())?;
    for _ in 0..70_000_u32 {
        page.byte(&mut sink, b'a');
    }
    page.word(&mut sink, b"the end");
    assert_eq!(rt; page.finish(&mut sink), Err(WriteFault));
    assert_eq!(rt; sink.written(), b"aaaaaaaaaaaaaaaa".as_slice());
    Ok(())
}
