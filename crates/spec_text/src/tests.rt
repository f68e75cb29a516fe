ghost use Rattle.std.specs.Prelude.{◌≡◌, length, All, IfOk};
ghost use Rattle.tiling_core.specs.Tiles.{IsKept};

use crate::{put_class, put_head, put_number, put_rule, put_terms, write_spec};
use css_prune::{Entry, Spec};
use css_terms::Term;
use gridded::{Cell, Gridded, GriddedFault};
use perm_core::Perm;
use sequences::Sequence;
use std::alloc::{AllocError, Global};
use std::test::Fail;
use steps::Step;
use tile_rules::{Kind, TileRule, Tiles};
use tiling_core::{Tiling, TilingFault};

const ORIGIN: Cell = Cell { x: 0, y: 0 };

/// The pattern 0:00.
fn point(alloc: Global) -> Result<Gridded, GriddedFault> {
    Gridded::of(alloc, &[0], &[ORIGIN])
}

/// The pattern of two letters in the cell 00.
fn pair(alloc: Global, letters: [u8; 2]) -> Result<Gridded, GriddedFault> {
    Gridded::of(alloc, letters.as_slice(), &[ORIGIN, ORIGIN])
}

/// The obstructions 01:00.00 and 10:00.00.
fn pairs(alloc: Global) -> Result<Vec<Gridded>, Fail>
    ensures { IfOk result (λ patterns. length patterns.items ≡ 2) }
{
    let mut patterns = Vec::new(alloc);
    patterns.push(pair(alloc, [0, 1])?)?;
    patterns.push(pair(alloc, [1, 0])?)?;
    Ok(patterns)
}

/// The 1x1 tiling of the permutations of at most one point.
fn at_most_one(alloc: Global) -> Result<Tiling, Fail> {
    Ok(Tiling::of(alloc, 1, 1, pairs(alloc)?, Vec::new(alloc))?)
}

/// The 0x0 tiling.
fn unit(alloc: Global) -> Result<Tiling, TilingFault> {
    Tiling::of(alloc, 0, 0, Vec::new(alloc), Vec::new(alloc))
}

/// The trace M C0 R0, and that of no step.
fn two_traces(alloc: Global) -> Result<Vec<Sequence<Step>>, AllocError>
    ensures two { IfOk result (λ traces. length traces.items ≡ 2) }
    ensures short { IfOk result (λ traces. All (λ trace. IsKept trace) traces.items) }
{
    let steps = vec![in alloc; Step::Min, Step::Column(0), Step::Row(0)]?;
    Ok(vec![in alloc; Sequence::of(steps), Sequence::of(Vec::new(alloc))]?)
}

/// Two tilings.
fn two_tilings(alloc: Global) -> Result<Vec<Tiling>, Fail>
    ensures { IfOk result (λ tilings. length tilings.items ≡ 2) }
{
    let mut tilings = Vec::new(alloc);
    tilings.push(unit(alloc)?)?;
    tilings.push(at_most_one(alloc)?)?;
    Ok(tilings)
}

/// A rule that inserts the point, with two children and the two traces.
fn insertion(alloc: Global) -> Result<TileRule, Fail>
    ensures { IfOk result (λ rule. length rule.children ≡ 2) }
{
    Ok(TileRule::of(
        Kind::Insert(point(alloc)?),
        at_most_one(alloc)?,
        Sequence::of(two_tilings(alloc)?),
        Sequence::of(two_traces(alloc)?),
    ))
}

/// The rule of the 0x0 tiling.
fn unit_rule(alloc: Global) -> Result<TileRule, Fail>
    ensures { IfOk result (λ rule. length rule.children ≡ 0) }
{
    Ok(TileRule::of(
        Kind::Unit,
        unit(alloc)?,
        Sequence::of(Vec::new(alloc)),
        Sequence::of(Vec::new(alloc)),
    ))
}

/// The basis 01, 10.
fn basis(alloc: Global) -> Result<Vec<Perm>, Fail> {
    let mut basis = Vec::new(alloc);
    basis.push(Perm::of(alloc, &[0, 1])?)?;
    basis.push(Perm::of(alloc, &[1, 0])?)?;
    Ok(basis)
}

#[test]
fn lines_of_a_class(rt: HostRuntime) -> Result<(), Fail> {
    let alloc = rt.alloc();
    let mut out = Vec::new(alloc);
    put_class(&mut out, &at_most_one(alloc)?)?;
    assert_eq!(rt;
        out.as_slice(),
        b"grid 1 1\nobs 01:00.00 10:00.00\nreq -\n".as_slice()
    );
    Ok(())
}

#[test]
fn lines_of_a_head(rt: HostRuntime) -> Result<(), Fail> {
    let alloc = rt.alloc();
    let basis = basis(alloc)?;
    let mut out = Vec::new(alloc);
    put_head(&mut out, basis.as_slice(), &[])?;
    assert_eq!(rt; out.as_slice(), b"basis 01,10\nroot -\n".as_slice());
    Ok(())
}

#[test]
fn lines_of_a_rule(rt: HostRuntime) -> Result<(), Fail> {
    let alloc = rt.alloc();
    let rule = insertion(alloc)?;
    let mut out = Vec::new(alloc);
    put_rule(&mut out, &rule, &[1, 2])?;
    assert_eq!(rt;
        out.as_slice(),
        b"rule insert 0:00\nto 1 M C0 R0\nto 2 -\n".as_slice()
    );
    Ok(())
}

/// The specification of the 0x0 tiling.
fn unit_spec(alloc: Global) -> Result<Spec<Tiles>, Fail> {
    let mut entries = Vec::new(alloc);
    entries.push(Entry {
        class: unit(alloc)?,
        rule: unit_rule(alloc)?,
        children: Sequence::of(Vec::new(alloc)),
        rank: 1,
    })?;
    let Ok(spec) = Spec::of(entries) else {
        return Err(Fail::from("the entries are a specification"));
    };
    Ok(spec)
}

#[test]
fn a_whole_text(rt: HostRuntime) -> Result<(), Fail> {
    let alloc = rt.alloc();
    let mut basis = Vec::new(alloc);
    basis.push(Perm::of(alloc, &[0])?)?;
    let steps = [Step::Column(0), Step::Row(0)];
    let terms = [
        Term::Exact(1),
        Term::Exact(0),
        Term::Exact(0),
        Term::Exact(0),
    ];
    let spec = unit_spec(alloc)?;
    let text = write_spec(alloc, basis.as_slice(), &steps, &spec, &terms)?;
    let lines =
        b"tilescope 1\nbasis 0\nroot C0 R0\nentries 1\nentry 0 rank 1\ngrid 0 0\nobs -\nreq -\nrule unit\nterms 1 0 0 0\nend\n";
    assert_eq!(rt; text.as_slice(), lines.as_slice());
    Ok(())
}

#[test]
fn lines_of_terms(rt: HostRuntime) -> Result<(), Fail> {
    let mut out = Vec::new(rt.alloc());
    put_terms(
        &mut out,
        &[Term::Exact(1), Term::Exact(u128::MAX), Term::Big],
    )?;
    put_number(&mut out, 4294967295)?;
    let lines = b"terms 1 340282366920938463463374607431768211455 big\n4294967295";
    assert_eq!(rt; out.as_slice(), lines.as_slice());
    Ok(())
}
