// Gridded permutations in order, eight bytes at a time.
ghost use Rattle.std.specs.Prelude.{◌≡◌, ◌≤◌, length};
ghost use Rattle.gridded.specs.Orders.{gridded_cmp};
ghost use Rattle.gridded.specs.Keys.{IsWordOf, first_bytes, second_bytes, third_bytes, last_bytes};

use crate::gridded::Gridded;
use std::cmp::Ordering;

/// Eight bytes as one word, the first the highest.
fn word(bytes: &[u8; 8]) -> u64
    ensures { IsWordOf bytes.now result }
{
    u64::from_be_bytes(*bytes)
}

/// The length and the first seven letters.
fn first_word(g: &Gridded) -> u64
    ensures word { IsWordOf (first_bytes g.now) result }
    ensures short { length g.now ≤ 9 }
{
    let l = g.nine_letters();
    word(&[g.len() as u8, l[0], l[1], l[2], l[3], l[4], l[5], l[6]])
}

/// The last two letters and the first three cells.
fn second_word(g: &Gridded) -> u64
    ensures { IsWordOf (second_bytes g.now) result }
{
    let l = g.nine_letters();
    let [a, b, c, ..] = *g.nine_cells();
    word(&[l[7], l[8], a.x, a.y, b.x, b.y, c.x, c.y])
}

/// The next four cells.
fn third_word(g: &Gridded) -> u64
    ensures { IsWordOf (third_bytes g.now) result }
{
    let [_, _, _, a, b, c, d, ..] = *g.nine_cells();
    word(&[a.x, a.y, b.x, b.y, c.x, c.y, d.x, d.y])
}

/// The last two cells.
fn last_word(g: &Gridded) -> u64
    ensures { IsWordOf (last_bytes g.now) result }
{
    let [.., a, b] = *g.nine_cells();
    word(&[a.x, a.y, b.x, b.y, 0, 0, 0, 0])
}

/// By length, then letters, then cells.
pub(crate) fn compare(g: &Gridded, h: &Gridded) -> Ordering
    ensures { result ≡ gridded_cmp g.now h.now }
{
    match first_word(g).cmp(&first_word(h)) {
        Ordering::Equal => match second_word(g).cmp(&second_word(h)) {
            Ordering::Equal => match third_word(g).cmp(&third_word(h)) {
                Ordering::Equal => last_word(g).cmp(&last_word(h)),
                unequal => unequal,
            },
            unequal => unequal,
        },
        unequal => unequal,
    }
}
