// Heads, and rules of all kinds, that are read and written again.
use crate::{basis_line, put_head, put_number, put_rule, read_spec, root_line};
use css_prune::Entry;
use std::alloc::{AllocError, Global};
use std::test::Fail;
use tile_rules::Tiles;

/// The lines of a rule.
#[derive(Clone, Copy)]
struct Lines {
    rule: &'static str,
    children: &'static [&'static str],
}

/// Rules of all kinds.
const RULES: [Lines; 12] = [
    Lines {
        rule: "rule unit",
        children: &[],
    },
    Lines {
        rule: "rule point",
        children: &[],
    },
    Lines {
        rule: "rule void",
        children: &[],
    },
    Lines {
        rule: "rule insert 10:01.10",
        children: &["to 0 -", "to 11 M"],
    },
    Lines {
        rule: "rule place N 0:00^0",
        children: &["to 1 M C0 R0", "to 2 M K11 M R2"],
    },
    Lines {
        rule: "rule place S 01:00.11^1 0:21^0",
        children: &["to 3 -", "to 4 L", "to 5 M L C0"],
    },
    Lines {
        rule: "rule place E 0:00^0 0:01^0",
        children: &["to 7 V", "to 7 V", "to 7 V"],
    },
    Lines {
        rule: "rule place W 021:00.00.00^2",
        children: &["to 10 -", "to 9 -"],
    },
    Lines {
        rule: "rule rowcut 0 10",
        children: &["to 5 M"],
    },
    Lines {
        rule: "rule colcut 7 70.77",
        children: &["to 8 M L C7 R7"],
    },
    Lines {
        rule: "rule factor 00 11 22",
        children: &["to 1 C1 C1 R1 R1", "to 0 -", "to 6 K77"],
    },
    Lines {
        rule: "rule infer 0:11 01:11.11 10:11.11",
        children: &["to 4 M"],
    },
];

/// Appends the lines of a rule.
fn put_lines(out: &mut Vec<u8>, lines: Lines) -> Result<(), AllocError> {
    out.extend_from_slice(lines.rule.as_bytes())?;
    out.push(b'\n')?;
    for line in lines.children {
        out.extend_from_slice(line.as_bytes())?;
        out.push(b'\n')?;
    }
    Ok(())
}

/// A text whose entries have these rules, all for the 0x0 tiling.
fn text_of_rules(alloc: Global) -> Result<Vec<u8>, AllocError> {
    let mut text = Vec::from_slice(alloc, b"tilescope 1\nbasis 0\nroot -\nentries 12\n")?;
    let mut number = 0u32;
    for lines in RULES {
        text.extend_from_slice(b"entry ")?;
        put_number(&mut text, number)?;
        text.extend_from_slice(b" rank 0\ngrid 0 0\nobs -\nreq -\n")?;
        put_lines(&mut text, lines)?;
        number = number.saturating_add(1);
    }
    text.extend_from_slice(b"terms 1\nend\n")?;
    Ok(text)
}

/// The lines of an entry's rule, as they are written.
fn written(alloc: Global, entry: &Entry<Tiles>) -> Result<Vec<u8>, Fail> {
    let children = entry.children.as_slice();
    if children.len() != entry.rule.children().len() {
        return Err(Fail::from("each child has a number"));
    }
    let mut out = Vec::new(alloc);
    put_rule(&mut out, &entry.rule, children)?;
    Ok(out)
}

#[test]
fn rules_of_all_kinds(rt: HostRuntime) -> Result<(), Fail> {
    let alloc = rt.alloc();
    let text = text_of_rules(alloc)?;
    if text.len() > 4096 {
        return Err(Fail::from("a short text"));
    }
    let file = read_spec(alloc, text.as_slice())?;
    let entries = file.entries.as_slice();
    assert_eq!(rt; entries.len(), 12);
    for (entry, lines) in entries.iter().zip(RULES) {
        let mut wanted = Vec::new(alloc);
        put_lines(&mut wanted, lines)?;
        assert_eq!(rt;
            written(alloc, entry)?.as_slice(),
            wanted.as_slice(),
            "{}",
            lines.rule
        );
    }
    Ok(())
}

#[test]
fn heads(rt: HostRuntime) -> Result<(), Fail> {
    let alloc = rt.alloc();
    let rows = [
        ("basis 01,10", "root -"),
        ("basis 0", "root C0 R0"),
        ("basis 012345678", "root -"),
        ("basis 0,10", "root M C0 R0"),
        ("basis 01,021", "root M"),
        ("basis 0123,0132,3210", "root V M K00 L C7 R7"),
    ];
    for (first, second) in rows {
        let basis = basis_line(alloc, first.as_bytes())?;
        let trace = root_line(alloc, second.as_bytes())?;
        let mut out = Vec::new(alloc);
        put_head(&mut out, basis.as_slice(), trace.as_slice())?;
        let mut wanted = Vec::from_slice(alloc, first.as_bytes())?;
        wanted.push(b'\n')?;
        wanted.extend_from_slice(second.as_bytes())?;
        wanted.push(b'\n')?;
        assert_eq!(rt; out.as_slice(), wanted.as_slice(), "{first}");
    }
    Ok(())
}
