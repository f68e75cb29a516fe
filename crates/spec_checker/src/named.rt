ghost use Rattle.std.specs.Prelude.{◌≡◌, ◌<◌, ◌||◌, ℕ, All, false, length, nat_eq, slice_index_or};
ghost use Rattle.std.specs.List.{list_any};

/// Marks the entries that are named as children.
pub(crate) fn mark(named: &mut [bool], children: &[u32])
    requires { All (λ child. child < length named.old) children.now }
    ensures many { length named.new ≡ length named.old }
    ensures marked { (i : ℕ) → slice_index_or named.new i false ≡ (slice_index_or named.old i false || list_any (nat_eq i) children.now) }
{
    for child in children {
        named[*child as usize] = true;
    }
}
