// Sources that are read to their end: what is answered, what is left, and how many calls were made.
use crate::{MemSource, ReadFault, StdSource, SteadySource, read_all};
use std::test::Fail;

/// A source in memory that gives `most` bytes a call and fails at one of them, read with a limit.
#[derive(Drop)]
struct Reading {
    most: usize,
    fail: Option<u64>,
    limit: u64,
    answer: Result<(), ReadFault>,
    left: usize,
    calls: u64,
}

const fn reads_as(
    (most, fail, limit): (usize, Option<u64>, u64),
    answer: Result<(), ReadFault>,
    left: usize,
    calls: u64,
) -> Reading {
    Reading {
        most,
        fail,
        limit,
        answer,
        left,
        calls,
    }
}

#[test]
fn sources_are_read_to_their_end(rt: HostRuntime) -> Result<(), Fail> {
    let alloc = rt.alloc();
    let table = [
        reads_as((1, None, 8), Ok(()), 0, 9),
        reads_as((3, None, 8), Ok(()), 0, 4),
        reads_as((8, None, 8), Ok(()), 0, 2),
        reads_as((100, None, u64::MAX), Ok(()), 0, 2),
        reads_as((4, Some(0), 8), Err(ReadFault::Read), 8, 1),
        reads_as((4, Some(1), 8), Err(ReadFault::Read), 4, 2),
        reads_as((4, Some(2), 8), Err(ReadFault::Read), 0, 3),
        reads_as((4, Some(3), 8), Ok(()), 0, 3),
        reads_as((100, None, 7), Err(ReadFault::TooLong { limit: 7 }), 0, 1),
        reads_as((2, None, 4), Err(ReadFault::TooLong { limit: 4 }), 3, 3),
        reads_as((2, Some(2), 4), Err(ReadFault::Read), 4, 3),
        reads_as((9, None, 0), Err(ReadFault::TooLong { limit: 0 }), 7, 1),
    ];
    for row in &table {
        let mut fail = Vec::new(alloc);
        if let Some(call) = row.fail {
            fail.push(call)?;
        }
        assert!(rt; row.most > 0);
        let mut source = MemSource::new(Vec::from_slice(alloc, b"tilings!")?, row.most, fail);
        match read_all(alloc, &mut source, row.limit) {
            Ok(all) => {
                assert_eq!(rt; row.answer, Ok(()));
                assert_eq!(rt; all.as_slice(), b"tilings!".as_slice());
            }
            Err(fault) => assert_eq!(rt; row.answer, Err(fault)),
        }
        assert_eq!(rt;
            (source.left().len(), source.calls()),
            (row.left, row.calls)
        );
    }
    Ok(())
}

#[test]
fn long_sources_are_read_in_blocks(rt: HostRuntime) -> Result<(), Fail> {
    let alloc = rt.alloc();
    let bytes = vec![in alloc; b'*'; 5_000]?;
    let mut source = MemSource::new(bytes, 5_000, Vec::new(alloc));
    assert_eq!(rt; read_all(alloc, &mut source, 5_000)?.len(), 5_000);
    assert_eq!(rt; source.calls(), 3);
    Ok(())
}

#[test]
fn other_sources_are_read_too(rt: HostRuntime) -> Result<(), Fail> {
    let alloc = rt.alloc();
    let mut steady = SteadySource::new(Vec::from_slice(alloc, b"cells")?);
    assert_eq!(rt;
        read_all(alloc, &mut steady, 4),
        Err(ReadFault::TooLong { limit: 4 })
    );
    let mut std = StdSource::new(b"grid".as_slice());
    let all = read_all(alloc, &mut std, 4)?;
    assert_eq!(rt; all.as_slice(), b"grid".as_slice());
    Ok(())
}
