ghost use Rattle.std.specs.Prelude.{◌≡◌, ◌<◌, ◌^◌, length, IfOk};
ghost use Rattle.css_terms.specs.Rows.{IsInOrderOfRank, ranked_places};

use crate::rows::Row;
use std::alloc::{AllocError, Global};

/// The places of the rows, each after its rank, in ascending order of ranks.
pub fn in_order_of_rank(alloc: Global, rows: &[Row]) -> Result<Vec<(u32, u32)>, AllocError>
    requires { length rows.now < 2 ^ 28 }
    ensures { IfOk result (λ order. IsInOrderOfRank rows.now order.items) }
{
    let mut order = ranked_places(alloc, rows)?;
    order.sort()?;
    Ok(order)
}

fn ranked_places(alloc: Global, rows: &[Row]) -> Result<Vec<(u32, u32)>, AllocError>
    requires { length rows.now < 2 ^ 28 }
    ensures { IfOk result (λ order. order.items ≡ ranked_places rows.now) }
{
    let mut order = Vec::with_capacity(alloc, rows.len())?;
    for place in 0..rows.len() {
        let row = &rows[place];
        order.push((row.rank, place as u32))?;
    }
    Ok(order)
}
