// What no clause says of the adapters: how often they call a reader or a writer of std, and which calls count
// as faults.
use crate::{Failed, Sink, Source, StdSink, StdSource, write_all};
use std::alloc::Global;
use std::io::{ErrorKind, Read, Write};
use std::test::Fail;

/// How a fake answers one call.
#[derive(Clone, Copy)]
enum Turn {
    /// It moves so many bytes, or as many as there are.
    Moves(usize),
    Interrupted,
    Fails,
}

/// A reader that answers by these turns, and has nothing left after the last one.
#[derive(Drop)]
struct FakeReader {
    turns: &'static [Turn],
    at: usize,
}

impl Read for FakeReader {
    fn read(&mut self, buf: &mut [u8]) -> std::io::Result<usize> {
        if self.at >= self.turns.len() {
            return Ok(0);
        }
        let turn = self.turns[self.at];
        self.at += 1;
        match turn {
            Turn::Moves(most) => {
                let count = most.min(buf.len());
                buf[..count].fill(b'*');
                Ok(count)
            }
            Turn::Interrupted => Err(ErrorKind::Interrupted.into()),
            Turn::Fails => Err(ErrorKind::Other.into()),
        }
    }
}

/// A writer that answers by these turns, and takes nothing after the last one.
#[derive(Drop)]
struct FakeWriter<'a> {
    turns: &'static [Turn],
    at: usize,
    taken: &'a mut Vec<u8>,
}

impl Write for FakeWriter<'_> {
    fn write(&mut self, buf: &[u8]) -> std::io::Result<usize> {
        if self.at >= self.turns.len() {
            return Ok(0);
        }
        let turn = self.turns[self.at];
        self.at += 1;
        match turn {
            Turn::Moves(most) => {
                let count = most.min(buf.len());
                self.taken.extend_from_slice(&buf[..count])?;
                Ok(count)
            }
            Turn::Interrupted => Err(ErrorKind::Interrupted.into()),
            Turn::Fails => Err(ErrorKind::Other.into()),
        }
    }

    fn flush(&mut self) -> std::io::Result<()> {
        Ok(())
    }
}

/// What a source over these turns answers to one call for so many bytes, and how many faults it counted.
fn read_once(
    alloc: Global,
    turns: &'static [Turn],
    want: usize,
) -> Result<(Option<usize>, u64), Fail> {
    let mut source = StdSource::new(FakeReader { turns, at: 0 });
    let mut into = vec![in alloc; 0u8; want]?;
    let answer = source.read(into.as_mut_slice());
    Ok((answer.ok(), source.faults()))
}

#[test]
fn each_call_of_a_reader_counts_as_it_should(rt: HostRuntime) -> Result<(), Fail> {
    let alloc = rt.alloc();
    let interrupted = &[Turn::Interrupted, Turn::Interrupted, Turn::Moves(3)];
    assert_eq!(rt; read_once(alloc, interrupted, 8)?, (Some(3), 2));
    assert_eq!(rt; read_once(alloc, &[Turn::Moves(1)], 8)?, (Some(1), 0));
    assert_eq!(rt;
        read_once(alloc, &[Turn::Fails, Turn::Moves(3)], 8)?,
        (None, 1)
    );
    assert_eq!(rt; read_once(alloc, &[], 8)?, (Some(0), 0));
    assert_eq!(rt;
        read_once(alloc, &[Turn::Moves(9_000)], 5_000)?,
        (Some(4_096), 0)
    );
    Ok(())
}

/// How many of so many bytes a sink over these turns took, whether it took all, and how many faults it counted.
fn write_once(
    alloc: Global,
    turns: &'static [Turn],
    count: usize,
) -> Result<(usize, bool, u64), Fail> {
    let mut taken = Vec::new(alloc);
    let bytes = vec![in alloc; b'*'; count]?;
    let mut sink = StdSink::new(FakeWriter {
        turns,
        at: 0,
        taken: &mut taken,
    });
    let answer = write_all(&mut sink, bytes.as_slice());
    let faults = sink.faults();
    Ok((taken.len(), answer == Ok(()), faults))
}

#[test]
fn each_call_of_a_writer_counts_as_it_should(rt: HostRuntime) -> Result<(), Fail> {
    let alloc = rt.alloc();
    let interrupted = &[
        Turn::Interrupted,
        Turn::Moves(2),
        Turn::Interrupted,
        Turn::Moves(3),
    ];
    assert_eq!(rt; write_once(alloc, interrupted, 5)?, (5, true, 2));
    let one_by_one = &[Turn::Moves(1), Turn::Moves(1), Turn::Moves(1)];
    assert_eq!(rt; write_once(alloc, one_by_one, 3)?, (3, true, 0));
    assert_eq!(rt;
        write_once(alloc, &[Turn::Moves(2), Turn::Fails, Turn::Moves(3)], 5)?,
        (2, false, 1)
    );
    assert_eq!(rt;
        write_once(alloc, &[Turn::Moves(2), Turn::Moves(0), Turn::Moves(3)], 5)?,
        (2, false, 1)
    );
    assert_eq!(rt;
        write_once(alloc, &[Turn::Moves(9_000)], 5_000)?,
        (5_000, true, 0)
    );
    Ok(())
}
