//! Permissions of a leaf.

ghost use Rattle.std.specs.Prelude.{◌≡◌, ◌||◌, ◌&&◌, not, false, IsTrue, IfSome, IfNone};

/// What a leaf lets a user do: read, write, execute, and whether user accesses may use it at all.
/// The type keeps the rule of the RISC-V Privileged manual's leaf PTEs: one of read, write and
/// execute is set, and write is never set without read.
#[derive(Clone, Copy)]
pub struct Perm {
    pub r: bool,
    pub w: bool,
    pub x: bool,
    pub u: bool,
    pub ghost legal: { IsTrue ((r || x) && (r || not w)) },
}

impl Perm {
    /// The permission with these four bits. None where none of `r`, `w` and `x` is set, or `w` is
    /// set without `r`.
    pub fn new(r: bool, w: bool, x: bool, u: bool) -> Option<Perm>
        ensures some { IfSome result (λ p. (p.r ≡ r) × (p.w ≡ w) × (p.x ≡ x) × (p.u ≡ u)) }
        ensures none { IfNone result (((r || x) && (r || not w)) ≡ false) }
    {
        if (r || x) && (r || !w) {
            Some(Perm { r, w, x, u })
        } else {
            None
        }
    }
}
