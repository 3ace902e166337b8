// The roots of the sites, once the forest is flattened.
ghost use Rattle.std.specs.Prelude.{◌<◌, ℕ, length, get_or};

// Each site's root, which is a site too.
#[derive(Clone, Copy)]
pub(crate) struct Roots<'a> {
    pub(crate) row: &'a [u32],
    pub(crate) ghost inside: { (i : ℕ) → i < length row.now → get_or row.now i 0 < length row.now },
}
