ghost use Rattle.std.specs.Prelude.{◌≡◌, ◌<◌, not, length, map};
ghost use Rattle.std.specs.List.{list_all};
ghost use Rattle.css_domain.specs.Shapes.{is_same_length};

/// How the counts of a rule's children make the count of its parent: their sum, the sum of the products
/// over all ways to share the length, 1 at the atom's length alone, or 0 (docs/RULES.md, "Shapes").
#[derive(Clone, Copy, Debug, PartialEq, Eq)]
pub enum Shape {
    Union,
    Product,
    Atom(u8),
    Nothing,
}

/// Whether the child in a slot can have members as long as its parent's. True for a union; for a product
/// exactly where no other slot is positive; else false. The slot is a place of `children`, whose flags say
/// that a child is positive. Takes no memory.
pub fn same_length(shape: Shape, children: &[(u32, bool)], slot: u32) -> bool
    requires { slot < length children.now }
    ensures tested { result ≡ is_same_length shape (map (λ child. child.1) children.now) slot }
{
    match shape {
        Shape::Union => true,
        Shape::Product => no_other_positive(children, slot),
        Shape::Atom(_) => false,
        Shape::Nothing => false,
    }
}

fn no_other_positive(children: &[(u32, bool)], slot: u32) -> bool
    requires { slot < length children.now }
    ensures { result ≡ is_same_length Shape.Product (map (λ child. child.1) children.now) slot }
{
    let place = slot as usize;
    none_positive(&children[..place]) && none_positive(&children[place + 1..])
}

fn none_positive(children: &[(u32, bool)]) -> bool
    ensures { result ≡ list_all (λ child. not child.1) children.now }
{
    children.iter().all(|child| !child.1)
}
