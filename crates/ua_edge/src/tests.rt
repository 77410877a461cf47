use crate::{MemSink, MemSource, Put, Sink, Source, Took};
use std::test::Fail;

#[test]
fn a_source_gives_pieces_and_fails_where_it_is_to(rt: HostRuntime) -> Result<(), Fail> {
    let alloc = rt.alloc();
    let failing = vec![in alloc; 2u64]?;
    let mut source = MemSource::new(vec![in alloc; 1u8, 2, 3, 4]?, failing).in_pieces(3);
    let mut piece = [0u8; 8];
    assert_eq!(&rt; source.take(&mut piece), Took::Bytes(3));
    assert_eq!(&rt; piece, [1, 2, 3, 0, 0, 0, 0, 0]);
    assert_eq!(&rt; source.take(&mut piece), Took::Failed);
    assert_eq!(&rt; source.take(&mut piece), Took::Bytes(1));
    assert_eq!(&rt; piece, [4, 2, 3, 0, 0, 0, 0, 0]);
    assert_eq!(&rt; source.take(&mut piece), Took::End);
    assert_eq!(&rt; source.take(&mut piece), Took::End);
    Ok(())
}

#[test]
fn a_sink_takes_pieces_and_fails_where_it_is_to(rt: HostRuntime) -> Result<(), Fail> {
    let alloc = rt.alloc();
    let failing = vec![in alloc; 1u64, 3]?;
    let mut sink = MemSink::new(vec![in alloc; 9u8]?, failing).in_pieces(2);
    assert_eq!(&rt; sink.put(&[1, 2, 3]), Put::Failed);
    assert_eq!(&rt; sink.put(&[1, 2, 3]), Put::Wrote(2));
    assert_eq!(&rt; sink.put(&[3]), Put::Failed);
    assert_eq!(&rt; sink.put(&[3]), Put::Wrote(1));
    assert_eq!(&rt; sink.put(&[]), Put::Wrote(0));
    assert_eq!(&rt; sink.as_bytes(), [9, 1, 2, 3].as_slice());
    Ok(())
}
