use crate::{
    Failed, MemSink, Sink, Source, StdSink, StdSource, SteadySink, SteadySource, write_all,
};
use std::test::Fail;

#[test]
fn a_new_memory_sink_holds_nothing(rt: HostRuntime) -> Result<(), Fail> {
    let alloc = rt.alloc();
    let sink = MemSink::new(alloc, 8, 8, Vec::new(alloc))?;
    assert_eq!(rt; sink.held(), b"".as_slice());
    Ok(())
}

#[test]
fn all_is_written_in_pieces_of_two(rt: HostRuntime) -> Result<(), Fail> {
    let alloc = rt.alloc();
    let mut sink = MemSink::new(alloc, 8, 2, Vec::new(alloc))?;
    assert_eq!(rt; write_all(&mut sink, b"tiling"), Ok(()));
    assert_eq!(rt; sink.held(), b"tiling".as_slice());
    Ok(())
}

#[test]
fn the_second_call_fails(rt: HostRuntime) -> Result<(), Fail> {
    let alloc = rt.alloc();
    let mut fail = Vec::new(alloc);
    fail.push(1u64)?;
    let mut sink = MemSink::new(alloc, 8, 2, fail)?;
    assert_eq!(rt; write_all(&mut sink, b"tiling"), Err(Failed));
    assert_eq!(rt; sink.held(), b"ti".as_slice());
    Ok(())
}

#[test]
fn a_full_room_fails(rt: HostRuntime) -> Result<(), Fail> {
    let alloc = rt.alloc();
    let mut sink = MemSink::new(alloc, 4, 8, Vec::new(alloc))?;
    assert_eq!(rt; write_all(&mut sink, b"tiling"), Err(Failed));
    assert_eq!(rt; sink.held(), b"tili".as_slice());
    Ok(())
}

#[test]
fn a_steady_source_gives_its_bytes(rt: HostRuntime) -> Result<(), Fail> {
    let alloc = rt.alloc();
    let mut source = SteadySource::new(Vec::from_slice(alloc, b"cells")?);
    let mut into = [b'-'; 4];
    assert_eq!(rt; source.read(&mut into), Ok(4));
    assert_eq!(rt; into.as_slice(), b"cell".as_slice());
    assert_eq!(rt; source.read(&mut into), Ok(1));
    assert_eq!(rt; into.as_slice(), b"sell".as_slice());
    Ok(())
}

#[test]
fn a_steady_sink_keeps_its_pieces(rt: HostRuntime) -> Result<(), Fail> {
    let mut sink = SteadySink::new(rt.alloc());
    assert_eq!(rt; write_all(&mut sink, b"row "), Ok(()));
    assert_eq!(rt; write_all(&mut sink, b"and column"), Ok(()));
    assert_eq!(rt; sink.held(), Some(b"row and column".as_slice()));
    Ok(())
}

#[test]
fn a_writer_of_std_is_a_sink(rt: HostRuntime) -> Result<(), Fail> {
    let mut written = Vec::new(rt.alloc());
    let mut sink = StdSink::new(&mut written);
    assert_eq!(rt; write_all(&mut sink, b"rules"), Ok(()));
    assert_eq!(rt; written.as_slice(), b"rules".as_slice());
    Ok(())
}

#[test]
fn a_full_writer_of_std_is_a_fault(rt: HostRuntime) -> Result<(), Fail> {
    let mut places = [b'-'; 3];
    let mut sink = StdSink::new(places.as_mut_slice());
    assert_eq!(rt; write_all(&mut sink, b"rules"), Err(Failed));
    assert_eq!(rt; places.as_slice(), b"rul".as_slice());
    Ok(())
}

#[test]
fn a_reader_of_std_is_a_source(rt: HostRuntime) -> Result<(), Fail> {
    let mut source = StdSource::new(b"grid".as_slice());
    let mut into = [b'-'; 8];
    assert_eq!(rt; source.read(&mut into), Ok(4));
    assert_eq!(rt; into.as_slice(), b"grid----".as_slice());
    Ok(())
}
