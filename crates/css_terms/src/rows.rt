use css_domain::Shape;
use sequences::Sequence;

/// An entry of a specification by places: its rule's shape, the place of each child's entry with a flag
/// that says that the child is positive, and its rank (docs/RULES.md, "Terms").
#[derive(Debug, Drop)]
pub struct Row {
    pub shape: Shape,
    pub children: Sequence<(u32, bool)>,
    pub rank: u32,
}
