// A text: the first 4,096 bytes of all that was put into it.
use arrayvec::ArrayVec;

#[derive(Drop)]
pub struct Text {
    pub(crate) bytes: ArrayVec<u8, 4096>,
}
