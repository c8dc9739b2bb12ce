// What is still to be read of a sheet.
ghost use Rattle.std.specs.Prelude.{◌≡◌, ◌-◌, ◌≤◌, length};
ghost use Rattle.sheet.specs.Reading.{finished};

use rules::words::{Layer, Reason, Refusal};

/// The bytes left of a sheet of so many. That a reader leaves the size as it was is a clause of each: no invariant can speak of
/// two values.
#[derive(Clone, Copy)]
pub(crate) struct Unread<'a> {
    pub size: usize,
    pub rest: &'a [u8],
    ghost within: { length rest.now ≤ size },
}

impl<'a> Unread<'a> {
    pub(crate) fn new(bytes: &'a [u8]) -> Unread<'a>
        ensures size { result.size ≡ length bytes.now }
        ensures rest { result.rest.now ≡ bytes.now }
    {
        Unread {
            size: bytes.len(),
            rest: bytes,
        }
    }

    // How many bytes are read.
    pub(crate) fn at(self) -> usize
        ensures { result ≡ self.entry.size - length self.entry.rest.now }
    {
        self.size - self.rest.len()
    }

    // Nothing may follow.
    pub(crate) fn finish(self) -> Result<(), Refusal>
        ensures { result ≡ finished self.entry.size self.entry.rest.now tt }
    {
        match self.rest {
            [] => Ok(()),
            _ => Err(Layer::Sheet.refusal(Reason::BytesFollow, self.at())),
        }
    }
}
