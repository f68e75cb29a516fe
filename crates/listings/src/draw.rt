ghost use Rattle.std.specs.Prelude.{◌≡◌, ◌≤◌, ◌<◌, ◌++◌, IfOk, OnOk, map};
ghost use Rattle.listings.specs.Draws.{next_number, drawn_word, drawn_words, number_after, how_many, drawn_basis, bases_of_number};

use perm_core::Perm;
use sequences::{Sequence, ascending};
use std::alloc::{AllocError, Global};

/// How many bases a number leads to.
const BASES: u32 = 40;

/// The number that is drawn after another.
fn next_number(x: u64) -> u64
    requires { x ≤ 2147483647 }
    ensures value { result ≡ next_number x }
    ensures small { result ≤ 2147483647 }
{
    48_271 * x % 2_147_483_647
}

/// The letters of the word that a number draws.
fn letters_of(x: u64) -> [u8; 3]
    ensures { result ≡ drawn_word x }
{
    let words = [
        [0, 1, 2],
        [0, 2, 1],
        [1, 0, 2],
        [1, 2, 0],
        [2, 0, 1],
        [2, 1, 0],
    ];
    words[(x % 6) as usize]
}

/// Appends the words that the next numbers after x draw, and gives the last of these numbers.
fn draw_words(alloc: Global, words: &mut Vec<Perm>, count: u32, x: u64) -> Result<u64, AllocError>
    requires { x ≤ 2147483647 }
    ensures words { OnOk result (words.new.items ≡ words.old.items ++ drawn_words count x) }
    ensures number { IfOk result (λ y. y ≡ number_after count x) }
    ensures small { IfOk result (λ y. y ≤ 2147483647) }
{
    let mut left = count;
    let mut x = x;
    while left > 0 {
        x = next_number(x);
        let Ok(word) = Perm::of(alloc, letters_of(x).as_slice()) else {
            return Err(AllocError);
        };
        words.push(word)?;
        left -= 1;
    }
    Ok(x)
}

/// A basis, and the last number that was drawn for it.
struct Drawn {
    basis: Sequence<Perm>,
    last: u64,
}

/// The basis for which x is drawn.
fn draw_basis(alloc: Global, x: u64) -> Result<Drawn, AllocError>
    requires { x ≤ 2147483647 }
    ensures basis { IfOk result (λ drawn. drawn.basis ≡ drawn_basis x) }
    ensures last { IfOk result (λ drawn. drawn.last ≡ number_after (how_many x) x) }
    ensures small { IfOk result (λ drawn. drawn.last ≤ 2147483647) }
{
    let mut words = Vec::new(alloc);
    let last = draw_words(alloc, &mut words, 1 + (x % 3) as u32, x)?;
    Ok(Drawn {
        basis: ascending(words)?,
        last,
    })
}

/// The forty bases that a number leads to, the same on every machine. The refusal is want of memory.
pub fn draw_bases(alloc: Global, number: u32) -> Result<Vec<Sequence<Perm>>, AllocError>
    requires { number ≤ 1000000 }
    ensures { IfOk result (λ bases. bases.items ≡ bases_of_number number) }
{
    let mut bases = Vec::new(alloc);
    let mut x = u64::from(number) + 1;
    let mut left = BASES;
    while left > 0 {
        let Drawn { basis, last } = draw_basis(alloc, next_number(x))?;
        bases.push(basis)?;
        x = last;
        left -= 1;
    }
    Ok(bases)
}
