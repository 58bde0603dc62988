//! Pages whose size the walk caches already determine.

ghost use Rattle.std.specs.Prelude.{◌≡◌, true};
ghost use Rattle.xl_cuckoo_walk.specs.Soles.{AreSmall, IsSole};

/// The one order that is probed: 4 KiB in every way, or 2 MiB in one way. Else it is not known to
/// be one.
#[derive(Clone, Copy)]
pub(crate) enum Sole {
    Small,
    Middle(u64),
    Unknown,
}

/// The one order that the words of both sections of a page leave. An unknown word is 0, and then no
/// order is determined.
#[inline(always)]
pub(crate) fn sole_of(middle: u64, large: u64) -> Sole
    ensures { IsSole middle large result }
{
    if middle % 8 == 1 && large % 2 == 1 {
        return Sole::Small;
    }
    if middle % 8 == 2 && large / 2 % 2 == 1 && middle / 8 != 0 {
        return Sole::Middle(middle / 8 - 1);
    }
    Sole::Unknown
}

/// Whether both sections of a page are cached, and leave 4 KiB as the one order that is possible.
#[inline(always)]
pub(crate) fn leave_small(middle: Option<u64>, large: Option<u64>) -> bool
    ensures { result ≡ true → AreSmall middle large }
{
    let (Some(middle), Some(large)) = (middle, large) else {
        return false;
    };
    matches!(sole_of(middle, large), Sole::Small)
}
