use crate::command::Command;
use crate::law::words_mean_one_thing;
use crate::read::read_words;
use crate::request::{OptName, Request, WordFault};
use perm_core::BasisFault;
use std::alloc::{AllocError, Global};
use std::process::Abort;
use std::test::Fail;
use work_packs::Packs;

/// The words of a line, with one blank between them.
fn words(alloc: Global, line: &str) -> Result<Vec<String>, AllocError> {
    let mut words = Vec::new(alloc);
    for word in line.split(' ') {
        words.push(String::from_str(alloc, word)?)?;
    }
    Ok(words)
}

/// The fault that the words of a line are refused with.
fn fault(alloc: Global, line: &str) -> Result<Option<WordFault>, AllocError> {
    let words = words(alloc, line)?;
    Ok(read_words(alloc, words.as_slice()).err())
}

/// The words of a line are refused with this fault.
fn refuse(rt: &impl Abort, alloc: Global, line: &str, name: OptName) -> Result<(), Fail> {
    assert_eq!(rt;
        fault(alloc, line)?,
        Some(WordFault::Opt(name)),
        "at {line}"
    );
    Ok(())
}

#[test]
fn words_that_are_not_plain(rt: HostRuntime) -> Result<(), Fail> {
    let alloc = rt.alloc();
    let lines = [
        "",
        "find 12",
        "search",
        "search 12 13",
        "search -12",
        "search --terms 3",
        "search 12 --terms",
        "search 12 --terms=",
        "search 12 --terms -3",
        "search 12 --terms=-3",
        "search 12 --terms --budget 3",
        "search 12 --terms 1 --terms 1",
        "search 12 --terms=1 --terms 1",
        "search 12 -terms 1",
        "search 12 --help",
        "search --help",
        "search 12 -h",
        "search 12 --version",
        "search 12 --",
        "search -- 12",
        "search 12 --number 1",
        "search 12 --basis 12",
        "search 12  --terms 1",
        "check 12 --terms 1",
        "terms 12 --pack i",
        "count 12 --budget 1",
        "sample 1 --workers 1",
        "sample",
        "--terms 1 search 12",
    ];
    for line in lines {
        assert_eq!(&rt; fault(alloc, line)?, Some(WordFault::Words), "at {line}");
    }
    Ok(())
}

#[test]
fn values_out_of_range(rt: HostRuntime) -> Result<(), Fail> {
    let alloc = rt.alloc();
    let lines = [
        ("search 12 --workers 0", OptName::Workers),
        ("search 12 --workers 65", OptName::Workers),
        ("search 12 --budget 0", OptName::Budget),
        ("search 12 --budget 5001", OptName::Budget),
        ("search 12 --budget 03", OptName::Budget),
        ("search 12 --terms 201", OptName::Terms),
        ("search 12 --terms==3", OptName::Terms),
        ("search 12 --terms +3", OptName::Terms),
        ("search 12 --terms 4294967296", OptName::Terms),
        ("count 12 --terms 10", OptName::Terms),
        ("search 12 --pack rr", OptName::Pack),
        ("search 12 --pack q", OptName::Pack),
        ("search 12 --pack I", OptName::Pack),
        ("sample 1000001", OptName::Number),
        ("sample x", OptName::Number),
        (
            "search 1x2 --pack q --terms 201 --budget 0",
            OptName::Budget,
        ),
        ("search 1x2 --pack q --terms 201", OptName::Terms),
        ("search 1x2 --pack q", OptName::Pack),
    ];
    for (line, name) in lines {
        refuse(&rt, alloc, line, name)?;
    }
    Ok(())
}

#[test]
fn texts_of_no_basis(rt: HostRuntime) -> Result<(), Fail> {
    let alloc = rt.alloc();
    let lines = [
        ("search 112", BasisFault::Repeated { at: 1 }),
        ("search 1234567890", BasisFault::TooLong { at: 9 }),
        ("check 13,,2", BasisFault::Empty),
        ("count 1x2", BasisFault::BadByte { at: 1 }),
    ];
    for (line, why) in lines {
        assert_eq!(&rt;
            fault(alloc, line)?,
            Some(WordFault::Basis(why)),
            "at {line}"
        );
    }
    Ok(())
}

/// The request that the words of a line are read as.
fn read(alloc: Global, line: &str) -> Result<Request, Fail> {
    let words = words(alloc, line)?;
    match read_words(alloc, words.as_slice()) {
        Ok(request) => Ok(request),
        Err(_) => Err(Fail::from("refused")),
    }
}

#[test]
fn words_that_are_read(rt: HostRuntime) -> Result<(), Fail> {
    let alloc = rt.alloc();
    words_mean_one_thing();
    let request = read(alloc, "search 12 --terms=3 --pack i")?;
    assert_eq!(rt; request.command, Command::Search);
    assert_eq!(rt; request.basis.as_slice().len(), 1);
    assert_eq!(rt; request.basis.as_slice()[0].letters(), [0, 1].as_slice());
    assert_eq!(rt; request.workers, 1);
    assert_eq!(rt; request.budget, 500);
    assert_eq!(rt; request.terms, 3);
    assert_eq!(rt; Some(request.packs), Packs::read("i"));
    assert_eq!(rt; request.number, 0);
    Ok(())
}
