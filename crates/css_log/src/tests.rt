//! One log in one thread and in two. The record is that of an insertion: parent 0, a union, the children 1 and,
//! positive, 2.
ghost use Rattle.std.specs.Prelude.{◌≡◌, ◌≤◌, ◌*◌, ◌+◌, ◌++◌, ◌∷◌, [], length};
ghost use Rattle.css_domain.specs.WholeRecords.{IsWhole};
ghost use Rattle.css_log.specs.States.{WriterState, ReaderState, HasRoom};

use crate::{Log, Reader, Writer};
use std::sync::Wait;
use std::test::Fail;
use std::thread::{Threads, join};

const INSERTION: [u64; 4] = [0, 2, 2, 5];

/// Appends the record and publishes it.
fn write_one(log: &Log, writer: &mut Writer)
    requires log { writer.old.log ≡ log.now }
    requires whole { IsWhole writer.old.list }
    requires room { HasRoom log.now (length writer.old.list + 4) }
    ensures log { writer.new.log ≡ log.now }
    ensures list { writer.new.list ≡ writer.old.list ++ 0 ∷ 2 ∷ 2 ∷ 5 ∷ [] }
    ensures whole { IsWhole writer.new.list }
{
    writer.append(log, &INSERTION);
    writer.publish(log);
}

/// Writes the record 100 times.
fn write_many(log: &Log, mut writer: Writer) -> Writer
    requires log { writer.log ≡ log.now }
    requires empty { writer.list ≡ [] }
    requires room { HasRoom log.now 400 }
    ensures { result.log ≡ log.now }
{
    for _ in 0..100u64 {
        write_one(log, &mut writer);
    }
    writer
}

/// Reads until 400 words are there.
fn read_many<R: Wait>(rt: &R, log: &Log, mut reader: Reader) -> Reader
    requires { reader.log ≡ log.now }
    ensures { result.log ≡ log.now }
{
    for _ in rt.forever() {
        if reader.words().len() >= 400 {
            break;
        }
        reader.look(log);
        if reader.pull(log).is_err() {
            break;
        }
    }
    reader
}

#[test]
fn a_record_is_read_by_a_note_and_by_a_look(rt: HostRuntime) -> Result<(), Fail> {
    let (log, mut writer, mut reader) = Log::new(rt.alloc(), 4)?;
    assert_eq!(rt; reader.look(&log), 0);
    write_one(&log, &mut writer);
    let note = writer.note(&log);
    assert_eq!(rt; note.front(), 4);
    reader.learn(&log, note);
    assert_eq!(rt; reader.words().len(), 0);
    reader.pull(&log)?;
    assert!(rt; reader.words() == INSERTION.as_slice());
    assert_eq!(rt; reader.look(&log), 4);
    let Ok(words) = log.close(writer, reader) else {
        return Err(Fail::new("memory"));
    };
    assert!(rt; words.as_slice() == INSERTION.as_slice());
    Ok(())
}

#[test]
fn a_stop_is_found_once_it_is_set(rt: HostRuntime) -> Result<(), Fail> {
    let (log, mut writer, mut reader) = Log::new(rt.alloc(), 0)?;
    assert!(rt; !writer.stopped(&log));
    reader.set_stop(&log);
    assert!(rt; writer.stopped(&log) && writer.stopped(&log));
    Ok(())
}

#[test]
fn a_second_thread_reads_what_the_first_writes(rt: HostRuntime) -> Result<(), Fail> {
    let (log, writer, reader) = Log::new(rt.alloc(), 400)?;
    let (writer, reader) = join(
        &rt,
        || write_many(&log, writer),
        || read_many(&rt, &log, reader),
    );
    assert_eq!(rt; reader.words().len(), 400);
    let words = reader.words();
    assert!(rt; words.chunks(4).all(|record| record == INSERTION.as_slice()));
    assert!(rt;
        log.close(writer, reader)
            .is_ok_and(|words| words.len() == 400)
    );
    Ok(())
}

#[test]
fn a_look_alone_shows_what_is_published(rt: HostRuntime) -> Result<(), Fail> {
    let (log, mut writer, mut reader) = Log::new(rt.alloc(), 4)?;
    assert_eq!(rt; reader.look(&log), 0);
    reader.pull(&log)?;
    assert_eq!(rt; reader.words().len(), 0);
    write_one(&log, &mut writer);
    assert_eq!(rt; reader.look(&log), 4);
    reader.pull(&log)?;
    assert!(rt; reader.words() == INSERTION.as_slice());
    Ok(())
}
