// A sheet that is read where it stands.
ghost use Rattle.std.specs.Prelude.{◌≡◌};
ghost use Rattle.rules.specs.Meaning.{Lawful};
ghost use Rattle.sheet.specs.Statement.{Bytes};
ghost use Rattle.sheet.specs.Opened.{opened, counts_of};

use crate::counts::Counts;

/// Bytes, and the counts of what they open as: nothing is copied.
#[derive(Clone, Copy)]
pub struct OpenSheet<'a> {
    pub(crate) bytes: &'a [u8],
    pub(crate) counts: Counts,
    ghost fits: { Bytes bytes.now },
    ghost counted: { counts ≡ counts_of (opened bytes.now) },
    ghost lawful: { ∥ Lawful (opened bytes.now).0 ∥₁ },
}
