// What each strategy lists for one tiling, called by itself.
use crate::kinds_tests::{put_kind, tiling};
use rule_kinds::Kind;
use std::alloc::{AllocError, Global};
use std::test::Fail;
use tiling_core::Tiling;

/// Tilings with what one strategy lists for them, worked out apart from this program. A row has the sides; the
/// obstructions; the requirement lists; the call; and the kinds in order. The first twelve are of the worked
/// specification of the permutations that avoid 021.
const ROWS: [&str; 20] = [
    "11 ; 021:00.00.00 ; - ; insertions ; insert 0:00",
    "11 ; 021:00.00.00 ; - ; rows ; place N 0:00^0, place S 0:00^0",
    "11 ; 021:00.00.00 ; - ; columns ; place E 0:00^0, place W 0:00^0",
    "11 ; 021:00.00.00 ; - ; points ; -",
    "32 ; 0:01 0:10 0:21 01:00.20 01:11.11 10:11.11 021:00.00.00 021:20.20.20 ; 0:11 ; parts ; factor 00.20 11",
    "32 ; 0:01 0:10 0:21 01:00.20 01:11.11 10:11.11 021:00.00.00 021:20.20.20 ; 0:11 ; points ; place N 0:11^0, place S 0:11^0, place E 0:11^0, place W 0:11^0",
    "21 ; 01:00.10 021:00.00.00 021:10.10.10 ; - ; parts ; -",
    "21 ; 01:00.10 021:00.00.00 021:10.10.10 ; - ; row cuts ; rowcut 0 10",
    "21 ; 01:00.10 021:00.00.00 021:10.10.10 ; - ; column cuts ; -",
    "11 ; 01:00.00 10:00.00 ; 0:00 ; points ; place N 0:00^0, place S 0:00^0, place E 0:00^0, place W 0:00^0",
    "22 ; 0:00 0:11 021:01.01.01 021:10.10.10 ; - ; parts ; factor 01 10",
    "22 ; 0:00 0:11 021:01.01.01 021:10.10.10 ; - ; rows ; place N 0:10^0, place S 0:10^0, place N 0:01^0, place S 0:01^0",
    "21 ; 01:00.00 01:00.10 10:00.00 102:00.00.10 ; 0:00 ; row cuts ; rowcut 0 10",
    "31 ; 01:10.20 01:20.20 10:00.10 10:00.20 10:20.20 ; 0:20 ; row cuts ; rowcut 0 00, rowcut 0 00.20",
    "22 ; 01:00.00 01:01.01 10:00.00 10:01.00 10:11.10 ; 0:11 ; column cuts ; colcut 0 00, colcut 1 10",
    "22 ; 0:10 0:11 01:00.01 10:01.00 ; - ; column cuts ; colcut 0 00, colcut 0 01",
    "32 ; 0:00 0:11 0:21 01:10.10 201:10.20.20 ; 0:10 ; parts ; factor 01 10.20",
    "32 ; 0:00 0:11 0:21 01:10.10 201:10.20.20 ; 0:10 ; columns ; place E 0:01^0, place W 0:01^0, place E 0:10^0, place W 0:10^0, place E 0:20^0, place W 0:20^0",
    "13 ; 0:00 01:01.02 ; - ; columns ; place E 0:01^0 0:02^0, place W 0:01^0 0:02^0",
    "11 ; 10:00.00 ; 01:00.00 ; points ; place N 01:00.00^0, place S 01:00.00^0, place E 01:00.00^0, place W 01:00.00^0, place N 01:00.00^1, place S 01:00.00^1, place E 01:00.00^1, place W 01:00.00^1",
];

/// What the strategy of a call lists.
fn listed(alloc: Global, call: &str, tiling: &Tiling) -> Result<Vec<Kind>, AllocError> {
    match call {
        "insertions" => insertion::arguments(alloc, tiling),
        "rows" => placement::rows(alloc, tiling),
        "columns" => placement::columns(alloc, tiling),
        "points" => placement::points(alloc, tiling),
        "parts" => factoring::parts(alloc, tiling),
        "row cuts" => separation::rows(alloc, tiling),
        "column cuts" => separation::columns(alloc, tiling),
        _ => Err(AllocError),
    }
}

/// The kinds, joined by commas; none is "-".
fn text_of(alloc: Global, kinds: &[Kind]) -> Result<Vec<u8>, AllocError> {
    let mut out = Vec::new(alloc);
    for kind in kinds {
        if !out.is_empty() {
            out.extend_from_slice(b", ")?;
        }
        put_kind(&mut out, alloc, kind)?;
    }
    if out.is_empty() {
        out.push(b'-')?;
    }
    Ok(out)
}

/// Whether the kinds of a row are listed.
fn is_met(alloc: Global, row: &str) -> Result<bool, Fail> {
    let mut parts = row.split(';');
    let sides = parts.next().ok_or(AllocError)?;
    let obstructions = parts.next().ok_or(AllocError)?;
    let lists = parts.next().ok_or(AllocError)?;
    let call = parts.next().ok_or(AllocError)?.trim();
    let kinds = parts.next().ok_or(AllocError)?.trim();
    let tiling = tiling(alloc, sides, obstructions, lists)?;
    let found = listed(alloc, call, &tiling)?;
    Ok(text_of(alloc, &found)?.as_slice() == kinds.as_bytes())
}

#[test]
fn each_strategy_lists_its_kinds(rt: HostRuntime) -> Result<(), Fail> {
    for row in ROWS {
        assert!(rt; is_met(rt.alloc(), row)?, "at {row}");
    }
    Ok(())
}
