ghost use Rattle.std.specs.Prelude.{◌≡◌, ◌<◌, ◌^◌, ℕ, Bool, true, nat_eq, length, map, IfOk, OnOk};
ghost use Rattle.css_domain.specs.Added.{order_from};
ghost use Rattle.css_prune.specs.Pruning.{kept};
ghost use Rattle.css_prune.specs.Marks.{AreBelow};
ghost use Rattle.css_prune.specs.Places.{ArePlaces, IsGuide, calls};
ghost use Rattle.lists.specs.Added.{with_new, with_all_new};

use css_domain::Record;
use std::alloc::{AllocError, Global};

/// The classes in the order of entries, and one more than the place of each class, 0 where it has none.
#[derive(Drop)]
pub struct Order {
    pub order: Vec<u32>,
    pub places: Vec<u32>,
}

/// A class goes last where it has no place.
fn add_child(order: &mut Vec<u32>, places: &mut [u32], class: u32) -> Result<(), AllocError>
    requires places { ArePlaces order.old.items places.old }
    requires below { class < length places.old }
    requires few { length places.old < 2 ^ 31 }
    ensures order { OnOk result (order.new.items ≡ with_new nat_eq order.old.items class) }
    ensures places { OnOk result (ArePlaces order.new.items places.new) }
{
    if places[class as usize] != 0 {
        return Ok(());
    }
    let place = order.len() as u32 + 1;
    order.push(class)?;
    places[class as usize] = place;
    Ok(())
}

fn add_children(
    order: &mut Vec<u32>,
    places: &mut [u32],
    children: &[(u32, bool)],
) -> Result<(), AllocError>
    requires places { ArePlaces order.old.items places.old }
    requires below { AreBelow (length places.old) children.now }
    requires few { length places.old < 2 ^ 31 }
    ensures order { OnOk result (order.new.items ≡ with_all_new nat_eq order.old.items (map (λ child. child.0) children.now)) }
    ensures places { OnOk result (ArePlaces order.new.items places.new) }
{
    for child in children {
        add_child(order, places, child.0)?;
    }
    Ok(())
}

/// The order from a kept root, by the children of picks.
pub fn order_of(
    alloc: Global,
    records: &[Record],
    keep: &[bool],
    picks: &[u32],
    root: u32,
) -> Result<Order, AllocError>
    requires guide { IsGuide (kept keep.now) records.now picks.now (length keep.now) }
    requires picks { length picks.now ≡ length keep.now }
    requires root { kept keep.now root ≡ true }
    requires few { length keep.now < 2 ^ 31 }
    ensures order { IfOk result (λ made. made.order.items ≡ order_from root (calls records.now picks.now) (length keep.now)) }
    ensures places { IfOk result (λ made. ArePlaces made.order.items made.places.items) }
    ensures as_many { IfOk result (λ made. length made.places.items ≡ length keep.now) }
{
    let mut order = Vec::new(alloc);
    let mut places = vec![in alloc; 0u32; keep.len()]?;
    add_child(&mut order, &mut places, root)?;
    for place in 0..keep.len() {
        if place >= order.len() {
            return Ok(Order { order, places });
        }
        let class = order[place];
        let item = &records[picks[class as usize] as usize];
        add_children(&mut order, &mut places, item.children.as_slice())?;
    }
    Ok(Order { order, places })
}
