// The flags for opening a translator, with the numbers that the header gives them.
ghost use Rattle.std.specs.Prelude.{◌≡◌};
ghost use Rattle.larboardyuzu_c.specs.Flags.{has_compact, has_paired};

/// The flag for compact style.
pub(crate) const COMPACT: u32 = 1;

/// The flag for paired controllers.
pub(crate) const PAIRED: u32 = 2;

/// Returns whether the flag for compact style is set.
pub(crate) fn has_compact(flags: u32) -> bool
    ensures { result ≡ has_compact flags }
{
    flags / COMPACT % 2 == 1
}

/// Returns whether the flag for paired controllers is set.
pub(crate) fn has_paired(flags: u32) -> bool
    ensures { result ≡ has_paired flags }
{
    flags / PAIRED % 2 == 1
}
