// The adapters over std's streams. No clause says anything of their content.
use super::*;
use std::test::Fail;

#[test]
fn std_streams_pass_bytes_on(rt: HostRuntime) -> Result<(), Fail> {
    let text = b"a source gives all its bytes to the end";
    let mut source = StdSource::new(text.as_slice());
    let bytes = read_all(rt.alloc(), &mut source, 39)?;
    assert_eq!(rt; bytes.as_slice(), text.as_slice());

    let mut buffer = [0; 8];
    let mut sink = StdSink::new(buffer.as_mut_slice());
    assert_eq!(rt; write_all_of(&mut sink, b"journal"), Ok(()));
    assert_eq!(rt; write_all_of(&mut sink, b"ab"), Err(WriteFault));
    assert_eq!(rt; buffer.as_slice(), b"journala".as_slice());
    Ok(())
}
