ghost use Rattle.std.specs.Prelude.{◌≤◌};

use crate::by_pack::ByPack;
use crate::root::{Reduced, reduce_root};
use crate::run::run_plain;
use crate::tests::words;
use css_crew::{Reason, solve_alone};
use css_ledger::Counts;
use outside::{MemSink, SteadySink, SteadySource};
use perm_core::read_basis;
use std::alloc::Global;
use std::process::Abort;
use std::test::Fail;
use work_packs::Packs;

/// The specification of the permutations that avoid 021, by placements in rows, cuts and factors.
pub(crate) const CATALAN: &str = "tilescope 1
basis 021
root -
entries 6
entry 0 rank 3
grid 1 1
obs 021:00.00.00
req -
rule place N 0:00^0
to 1 M C0 R0
to 2 M K11 M R2
entry 1 rank 1
grid 0 0
obs -
req -
rule unit
entry 2 rank 2
grid 3 2
obs 0:01 0:10 0:21 01:00.20 01:11.11 10:11.11 021:00.00.00 021:20.20.20
req 0:11
rule factor 00.20 11
to 3 C1 R1
to 4 C0 C1 R0
entry 3 rank 5
grid 2 1
obs 01:00.10 021:00.00.00 021:10.10.10
req -
rule rowcut 0 10
to 5 M
entry 4 rank 1
grid 1 1
obs 01:00.00 10:00.00
req 0:00
rule point
entry 5 rank 4
grid 2 2
obs 0:00 0:11 021:01.01.01 021:10.10.10
req -
rule factor 01 10
to 0 C1 R0
to 0 C0 R1
terms 1 1 2 5 14 42 132
end
";

/// How that ends, with the counts up to length 200.
pub(crate) const CATALAN_TO_200: &str =
    "terms 1 1 2 5 14 42 132 429 1430 4862 16796 58786 208012 742900 2674440 9694845 35357670 129644790 477638700 1767263190 6564120420 24466267020 91482563640 343059613650 1289904147324 4861946401452 18367353072152 69533550916004 263747951750360 1002242216651368 3814986502092304 14544636039226909 55534064877048198 212336130412243110 812944042149730764 3116285494907301262 11959798385860453492 45950804324621742364 176733862787006701400 680425371729975800390 2622127042276492108820 10113918591637898134020 39044429911904443959240 150853479205085351660700 583300119592996693088040 2257117854077248073253720 8740328711533173390046320 33868773757191046886429490 131327898242169365477991900 509552245179617138054608572 1978261657756160653623774456 7684785670514316385230816156 29869166945772625950142417512 116157871455782434250553845880 451959718027953471447609509424 1759414616608818870992479875972 6852456927844873497549658464312 26700952856774851904245220912664 104088460289122304033498318812080 405944995127576985730643443367112 1583850964596120042686772779038896 6182127958584855650487080847216336 24139737743045626825711458546273312 94295850558771979787935384946380125 368479169875816659479009042713546950 1440418573150919668872489894243865350 5632681584560312734993915705849145100 22033725021956517463358552614056949950 86218923998960285726185640663701108500 337485502510215975556783793455058624700 big
end
";

/// How the specification of the increasing permutations ends, with the counts up to length 200.
const ONES: &str =
    "terms 1 1 1 1 1 1 1 1 1 1 1 1 1 1 1 1 1 1 1 1 1 1 1 1 1 1 1 1 1 1 1 1 1 1 1 1 1 1 1 1 1 1 1 1 1 1 1 1 1 1 1 1 1 1 1 1 1 1 1 1 1 1 1 1 1 1 1 1 1 1 1 1 1 1 1 1 1 1 1 1 1 1 1 1 1 1 1 1 1 1 1 1 1 1 1 1 1 1 1 1 1 1 1 1 1 1 1 1 1 1 1 1 1 1 1 1 1 1 1 1 1 1 1 1 1 1 1 1 1 1 1 1 1 1 1 1 1 1 1 1 1 1 1 1 1 1 1 1 1 1 1 1 1 1 1 1 1 1 1 1 1 1 1 1 1 1 1 1 1 1 1 1 1 1 1 1 1 1 1 1 1 1 1 1 1 1 1 1 1 1 1 1 1 1 1 1 1 1 1 1 1
end
";

/// Whether bytes end with a text.
fn ends_with(bytes: &[u8], text: &str) -> bool {
    let text = text.as_bytes();
    match bytes.len().checked_sub(text.len()) {
        Some(from) => &bytes[from..] == text,
        None => false,
    }
}

/// What a command line writes, which ends with status 0.
fn written(
    rt: &impl Abort,
    alloc: Global,
    line: &str,
    source: &mut SteadySource,
) -> Result<SteadySink, Fail> {
    let words = words(alloc, line)?;
    let mut sink = SteadySink::new(alloc);
    let ended = run_plain(alloc, words.as_slice(), source, &mut sink);
    assert_eq!(rt; ended.status, 0, "at {line}");
    Ok(sink)
}

#[test]
fn searches_end_with_their_counts(rt: HostRuntime) -> Result<(), Fail> {
    let alloc = rt.alloc();
    let rows = [
        ("search 132 --pack rsf --terms 200", CATALAN_TO_200),
        ("search 12 --pack rf --terms 200", ONES),
        (
            "search 123_132 --pack rsf --terms 5",
            "terms 1 1 2 4 8 16\nend\n",
        ),
        (
            "search 132 --pack ircpfsn --terms 10",
            "terms 1 1 2 5 14 42 132 429 1430 4862 16796\nend\n",
        ),
    ];
    for (line, text) in rows {
        let mut source = SteadySource::new(Vec::new(alloc));
        let sink = written(&rt, alloc, line, &mut source)?;
        assert!(rt; ends_with(sink.held().ok_or("lost")?, text), "at {line}");
    }
    Ok(())
}

#[test]
fn avoiders_of_132_are_specified(rt: HostRuntime) -> Result<(), Fail> {
    let alloc = rt.alloc();
    let lines = [
        "search 132 --pack rsf --terms 6",
        "search 021 --pack rsf --terms 6",
    ];
    for line in lines {
        let mut source = SteadySource::new(Vec::new(alloc));
        let sink = written(&rt, alloc, line, &mut source)?;
        assert_eq!(rt; sink.held().ok_or("lost")?, CATALAN.as_bytes(), "at {line}");
    }
    Ok(())
}

/// Whether some text, which is not empty, stands in bytes.
fn has(bytes: &[u8], text: &str) -> bool {
    let text = text.as_bytes();
    if text.is_empty() {
        return false;
    }
    bytes.windows(text.len()).any(|window| window == text)
}

#[test]
fn what_is_found_is_accepted(rt: HostRuntime) -> Result<(), Fail> {
    let alloc = rt.alloc();
    let rows = [
        (
            "search 12,21 --pack r --terms 3",
            "\nentries 3\n",
            "\nrule place N 0:00^0\n",
            "check 12,21",
            "accepted 3 4\n",
        ),
        (
            "search 12 --pack rf --terms 200",
            "\nentries 4\n",
            "\nbasis 01\n",
            "check 12",
            "accepted 4 201\n",
        ),
        (
            "search 123_132 --pack rsf --terms 5",
            "\nbasis 012,021\n",
            "\nrule place N 0:00^0\n",
            "terms 132,123",
            "terms 1 1 2 4 8 16\n",
        ),
    ];
    for (line, first, second, check, verdict) in rows {
        let mut source = SteadySource::new(Vec::new(alloc));
        let sink = written(&rt, alloc, line, &mut source)?;
        let text = sink.held().ok_or("lost")?;
        assert!(rt; has(text, first), "at {line}");
        assert!(rt; has(text, second), "at {line}");
        let mut again = SteadySource::new(Vec::from_slice(alloc, text)?);
        let answer = written(&rt, alloc, check, &mut again)?;
        assert_eq!(rt;
            answer.held().ok_or("lost")?,
            verdict.as_bytes(),
            "at {line}"
        );
    }
    Ok(())
}

#[test]
fn a_later_write_fails(rt: HostRuntime) -> Result<(), Fail> {
    let alloc = rt.alloc();
    let words = words(alloc, "search 132 --pack rsf --terms 6")?;
    let mut fail = Vec::new(alloc);
    fail.push(1)?;
    let mut source = SteadySource::new(Vec::new(alloc));
    let mut sink = MemSink::new(alloc, 1_000_000, 64, fail)?;
    let ended = run_plain(alloc, words.as_slice(), &mut source, &mut sink);
    assert_eq!(rt; ended.status, 5);
    assert!(rt; ended.ledger.is_some());
    assert_eq!(rt; sink.held(), &CATALAN.as_bytes()[..64]);
    Ok(())
}

/// Why a search by a pack ends, of at most so many classes, and how much it expands, finds and files.
#[tactic(auto, using(crate::proofs::Bases::naming))]
fn outcome(alloc: Global, basis: &str, letters: &str, budget: u32) -> Result<(Reason, Counts), Fail>
    requires some { 1 ≤ budget }
    requires few { budget ≤ 5000 }
{
    let Ok(basis) = read_basis(alloc, basis) else {
        return Err(Fail::new("no basis"));
    };
    let packs = Packs::read(letters).ok_or("no pack")?;
    let Reduced { root, trace: _ } = reduce_root(alloc, basis.as_slice())?;
    let solved = solve_alone(alloc, root, budget, &ByPack::of(packs))?;
    Ok((solved.reason, solved.ledger.counts()))
}

/// The numbers of expanded classes, of classes and of rules.
fn numbers(expanded: u32, classes: u32, rules: u32) -> Counts {
    Counts {
        expanded,
        classes,
        rules,
    }
}

#[test]
fn few_classes_are_expanded(rt: HostRuntime) -> Result<(), Fail> {
    let alloc = rt.alloc();
    let (reason, counts) = outcome(alloc, "132", "rsf", 1)?;
    assert_eq!(rt; reason, Reason::Budget);
    assert_eq!(rt; counts, numbers(1, 4, 2));
    let (reason, counts) = outcome(alloc, "132", "rsf", 7)?;
    assert_eq!(rt; reason, Reason::Budget);
    assert_eq!(rt; counts, numbers(7, 11, 9));
    let (reason, counts) = outcome(alloc, "132", "rsf", 8)?;
    assert_eq!(rt; reason, Reason::Found);
    assert_eq!(rt; counts, numbers(8, 11, 10));
    Ok(())
}

#[test]
fn searches_end_for_their_reasons(rt: HostRuntime) -> Result<(), Fail> {
    let alloc = rt.alloc();
    let (reason, counts) = outcome(alloc, "132", "f", 500)?;
    assert_eq!(rt; reason, Reason::Exhausted);
    assert_eq!(rt; counts, numbers(1, 1, 0));
    let (reason, counts) = outcome(alloc, "12", "rf", 4)?;
    assert_eq!(rt; reason, Reason::Budget);
    assert_eq!(rt; counts, numbers(4, 5, 5));
    let (reason, counts) = outcome(alloc, "12", "rf", 5)?;
    assert_eq!(rt; reason, Reason::Found);
    assert_eq!(rt; counts.expanded, 5);
    Ok(())
}
