// The kinds that are filed, as texts.
ghost use Rattle.std.specs.Prelude.{IfOk, All};
ghost use Rattle.tiling_core.specs.Tiles.{IsKept};

use crate::{Packs, expand};
use gridded::{Cell, CellSet, Gridded};
use normal_form::normalise;
use rule_kinds::{Direction, Kind, Pointed};
use sequences::{Sequence, TOO_MANY};
use std::alloc::{AllocError, Global};
use std::test::Fail;
use tiling_core::Tiling;

/// Normal tilings with the kinds of their complete filings, worked out apart from this program. A row has the
/// sides; the obstructions; the requirement lists; the letters of a pack; and the kinds in order.
const ROWS: [&str; 27] = [
    "00 ; - ; - ; ircpfsn ; unit",
    "11 ; 01:00.00 10:00.00 ; 0:00 ; ircpfsn ; point",
    "00 ; e ; - ; ircpfsn ; void",
    "11 ; 021:00.00.00 ; - ; i ; insert 0:00",
    "11 ; 021:00.00.00 ; - ; p ; -",
    "11 ; 021:00.00.00 ; - ; ircpfsn ; insert 0:00, place N 0:00^0, place S 0:00^0, place E 0:00^0, place W 0:00^0",
    "11 ; - ; 0:00 ; ic ; place E 0:00^0, place W 0:00^0",
    "21 ; 01:00.10 021:00.00.00 021:10.10.10 ; - ; r ; place N 0:00^0 0:10^0, place S 0:00^0 0:10^0",
    "21 ; 01:00.10 021:00.00.00 021:10.10.10 ; - ; rc ; place N 0:00^0 0:10^0, place S 0:00^0 0:10^0, place E 0:00^0, place W 0:00^0, place E 0:10^0, place W 0:10^0",
    "21 ; 01:00.10 021:00.00.00 021:10.10.10 ; - ; ircpfsn ; rowcut 0 10",
    "22 ; 0:00 0:11 021:01.01.01 021:10.10.10 ; - ; rsf ; factor 01 10",
    "22 ; 0:00 0:11 021:01.01.01 021:10.10.10 ; - ; c ; place E 0:01^0, place W 0:01^0, place E 0:10^0, place W 0:10^0",
    "32 ; 0:01 0:10 0:21 01:00.20 01:11.11 10:11.11 021:00.00.00 021:20.20.20 ; 0:11 ; ircpfsn ; factor 00.20 11",
    "32 ; 0:01 0:10 0:21 01:00.20 01:11.11 10:11.11 021:00.00.00 021:20.20.20 ; 0:11 ; s ; rowcut 0 20",
    "32 ; 0:01 0:10 0:21 01:00.20 01:11.11 10:11.11 021:00.00.00 021:20.20.20 ; 0:11 ; p ; place N 0:11^0, place S 0:11^0, place E 0:11^0, place W 0:11^0",
    "32 ; 0:01 0:10 0:21 01:00.20 01:11.11 10:11.11 021:00.00.00 021:20.20.20 ; 0:11 ; rp ; place N 0:00^0 0:20^0, place S 0:00^0 0:20^0, place N 0:11^0, place S 0:11^0, place E 0:11^0, place W 0:11^0",
    "32 ; 0:01 0:10 0:21 01:00.20 01:11.11 10:11.11 021:00.00.00 021:20.20.20 ; 0:11 ; i ; insert 0:00, insert 0:20",
    "71 ; - ; - ; rc ; -",
    "12 ; - ; 0:00 01:01.01 ; p ; place N 0:00^0, place S 0:00^0, place E 0:00^0, place W 0:00^0, place N 01:01.01^0, place S 01:01.01^0, place E 01:01.01^0, place W 01:01.01^0, place N 01:01.01^1, place S 01:01.01^1, place E 01:01.01^1, place W 01:01.01^1",
    "11 ; - ; 012:00.00.00 ; p ; -",
    "22 ; 01:00.10 10:01.00 ; - ; s ; rowcut 0 10, colcut 0 00",
    "31 ; 01:00.10 10:00.20 10:10.20 ; - ; s ; rowcut 0 00.10, rowcut 0 10",
    "21 ; 01:00.10 10:00.10 ; 0:10 ; sn ; rowcut 0 00, rowcut 0 10",
    "21 ; 01:00.10 10:00.10 ; 0:10 ; n ; infer 0:00 01:00.00 10:00.00",
    "21 ; 01:00.00 10:00.10 ; 0:00 0:10 ; n ; -",
    "21 ; 01:00.00 10:00.10 ; 0:00 0:10 ; sn ; rowcut 0 00",
    "22 ; 0:01 0:10 01:11.11 10:00.00 ; - ; fs ; factor 00 11",
];

/// The number of a digit.
fn digit(byte: u8) -> u8 {
    byte.saturating_sub(b'0')
}

/// The cell of two digits.
fn cell(text: &str) -> Cell {
    match text.as_bytes() {
        [x, y] => Cell {
            x: digit(*x),
            y: digit(*y),
        },
        _ => Cell { x: 9, y: 9 },
    }
}

/// The pattern of a text; that without points is "e".
fn pattern(alloc: Global, text: &str) -> Result<Gridded, Fail> {
    let mut letters = Vec::new(alloc);
    let mut cells = Vec::new(alloc);
    let mut halves = text.split(':');
    let word = halves.next().ok_or(AllocError)?;
    if word != "e" {
        for byte in word.as_bytes() {
            letters.push(digit(*byte))?;
        }
        for item in halves.next().ok_or(AllocError)?.split('.') {
            cells.push(cell(item))?;
        }
    }
    if letters.len() > 9 {
        return Err(Fail::from("long"));
    }
    Ok(Gridded::of(alloc, letters.as_slice(), cells.as_slice())?)
}

/// The patterns of a text; none is "-".
fn patterns(alloc: Global, text: &str) -> Result<Vec<Gridded>, Fail> {
    let mut patterns = Vec::new(alloc);
    for item in text.split_whitespace() {
        if item != "-" {
            patterns.push(pattern(alloc, item)?)?;
        }
    }
    Ok(patterns)
}

/// Lists of one pattern each.
fn each_alone(alloc: Global, patterns: Vec<Gridded>) -> Result<Vec<Sequence<Gridded>>, Fail>
    ensures { IfOk result (λ lists. All (λ patterns. IsKept patterns) lists.items) }
{
    let mut lists = Vec::new(alloc);
    for pattern in patterns {
        lists.push(Sequence::of(vec![in alloc; pattern]?))?;
    }
    Ok(lists)
}

/// The tiling of these sides, obstructions and requirement lists.
pub(crate) fn tiling(
    alloc: Global,
    sides: &str,
    obstructions: &str,
    lists: &str,
) -> Result<Tiling, Fail> {
    let sides = cell(sides.trim());
    let obstructions = patterns(alloc, obstructions)?;
    let lists = each_alone(alloc, patterns(alloc, lists)?)?;
    if obstructions.len() >= TOO_MANY || lists.len() >= TOO_MANY {
        return Err(Fail::from("long"));
    }
    Ok(Tiling::of(alloc, sides.x, sides.y, obstructions, lists)?)
}

/// Adds a word.
fn put_word(out: &mut Vec<u8>, word: &[u8]) -> Result<(), AllocError> {
    out.extend_from_slice(word)?;
    Ok(())
}

/// Adds a number below 10.
fn put_digit(out: &mut Vec<u8>, number: u8) -> Result<(), AllocError> {
    out.push(b'0'.saturating_add(number))?;
    Ok(())
}

/// Adds cells, joined by dots.
fn put_cells(out: &mut Vec<u8>, cells: &[Cell]) -> Result<(), AllocError> {
    let mut first = true;
    for cell in cells {
        if !first {
            out.push(b'.')?;
        }
        first = false;
        put_digit(out, cell.x)?;
        put_digit(out, cell.y)?;
    }
    Ok(())
}

/// Adds a blank and a pattern.
fn put_pattern(out: &mut Vec<u8>, pattern: &Gridded) -> Result<(), AllocError> {
    out.push(b' ')?;
    for letter in pattern.letters() {
        put_digit(out, *letter)?;
    }
    out.push(b':')?;
    put_cells(out, pattern.cells())
}

/// Adds a placement.
fn put_place(
    out: &mut Vec<u8>,
    pointed: &[Pointed],
    direction: Direction,
) -> Result<(), AllocError> {
    out.extend_from_slice(match direction {
        Direction::North => b"place N",
        Direction::South => b"place S",
        Direction::East => b"place E",
        Direction::West => b"place W",
    })?;
    for one in pointed {
        put_pattern(out, one.pattern())?;
        out.push(b'^')?;
        put_digit(out, one.index())?;
    }
    Ok(())
}

/// Adds a blank and a set.
fn put_set(out: &mut Vec<u8>, alloc: Global, set: CellSet) -> Result<(), AllocError> {
    out.push(b' ')?;
    put_cells(out, set.cells(alloc)?.as_slice())
}

/// Adds a factoring.
fn put_factor(out: &mut Vec<u8>, alloc: Global, sets: &[CellSet]) -> Result<(), AllocError> {
    out.extend_from_slice(b"factor")?;
    for set in sets {
        put_set(out, alloc, *set)?;
    }
    Ok(())
}

/// Adds an inferral.
fn put_infer(out: &mut Vec<u8>, patterns: &[Gridded]) -> Result<(), AllocError> {
    out.extend_from_slice(b"infer")?;
    for pattern in patterns {
        put_pattern(out, pattern)?;
    }
    Ok(())
}

/// Adds a kind.
pub(crate) fn put_kind(out: &mut Vec<u8>, alloc: Global, kind: &Kind) -> Result<(), AllocError> {
    match kind {
        Kind::Unit => put_word(out, b"unit"),
        Kind::Point => put_word(out, b"point"),
        Kind::Void => put_word(out, b"void"),
        Kind::Insert(pattern) => {
            out.extend_from_slice(b"insert")?;
            put_pattern(out, pattern)
        }
        Kind::Place(pointed, direction) => put_place(out, pointed.as_slice(), *direction),
        Kind::RowCut(row, set) => {
            out.extend_from_slice(b"rowcut ")?;
            put_digit(out, *row)?;
            put_set(out, alloc, *set)
        }
        Kind::ColumnCut(column, set) => {
            out.extend_from_slice(b"colcut ")?;
            put_digit(out, *column)?;
            put_set(out, alloc, *set)
        }
        Kind::Factor(sets) => put_factor(out, alloc, sets.as_slice()),
        Kind::Infer(patterns) => put_infer(out, patterns.as_slice()),
    }
}

/// The kinds of the complete filing of a tiling's normal form, joined by commas; none is "-".
fn kinds_filed(alloc: Global, tiling: Tiling, packs: Packs) -> Result<Vec<u8>, AllocError> {
    let (normal, _) = normalise(alloc, tiling)?;
    let filing = expand(alloc, &normal, packs)?;
    let mut out = Vec::new(alloc);
    for rule in filing.as_slice() {
        if !out.is_empty() {
            out.extend_from_slice(b", ")?;
        }
        put_kind(&mut out, alloc, rule.kind())?;
    }
    if out.is_empty() {
        out.push(b'-')?;
    }
    Ok(out)
}

/// Whether the kinds of a row are filed.
fn is_met(alloc: Global, row: &str) -> Result<bool, Fail> {
    let mut parts = row.split(';');
    let sides = parts.next().ok_or(AllocError)?;
    let obstructions = parts.next().ok_or(AllocError)?;
    let lists = parts.next().ok_or(AllocError)?;
    let letters = parts.next().ok_or(AllocError)?.trim();
    let kinds = parts.next().ok_or(AllocError)?.trim();
    let packs = Packs::read(letters).ok_or(AllocError)?;
    let tiling = tiling(alloc, sides, obstructions, lists)?;
    let filed = kinds_filed(alloc, tiling, packs)?;
    Ok(filed.as_slice() == kinds.as_bytes())
}

#[test]
fn kinds_of_rows(rt: HostRuntime) -> Result<(), Fail> {
    let alloc = rt.alloc();
    for row in ROWS {
        assert!(rt; is_met(alloc, row)?, "at {row}");
    }
    Ok(())
}

/// The points of seventeen cells.
const SEVENTEEN: &str =
    "0:00 0:01 0:02 0:03 0:10 0:11 0:12 0:13 0:20 0:21 0:22 0:23 0:30 0:31 0:32 0:33 0:40";

#[test]
fn the_first_sixteen_lists_are_placed(rt: HostRuntime) -> Result<(), Fail> {
    let alloc = rt.alloc();
    let packs = Packs::read("p").ok_or(AllocError)?;
    let kinds = kinds_filed(alloc, tiling(alloc, "54", "-", SEVENTEEN)?, packs)?;
    assert_eq!(rt; kinds.split(|byte| *byte == b',').count(), 64);
    assert!(rt; kinds.ends_with(b", place W 0:33^0"));
    Ok(())
}
