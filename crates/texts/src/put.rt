// What is put into a text goes behind what it holds.
ghost use Rattle.std.specs.Prelude.{◌≡◌, ◌≤◌, [], ◌∷◌, ◌++◌, length, decimal};
ghost use Rattle.texts.specs.Text.{text, kept};

use crate::text::Text;
use arrayvec::ArrayVec;
use itoa::Buffer;

impl Text {
    pub fn new() -> Text
        ensures { text result ≡ [] }
    {
        Text {
            bytes: ArrayVec::new(),
        }
    }

    // A byte, where there is room.
    #[tactic(auto, using(crate::proofs::Keeping::pushed, crate::proofs::Keeping::dropped))]
    pub fn push(&mut self, byte: u8)
        ensures { text self.new ≡ kept (text self.old ++ byte ∷ []) }
    {
        if !self.bytes.is_full() {
            self.bytes.push(byte);
        }
    }

    // As many bytes as fit.
    #[tactic(auto, using(crate::proofs::Keeping::filled))]
    pub fn put(&mut self, piece: &[u8])
        ensures { text self.new ≡ kept (text self.old ++ piece.now) }
    {
        let room = self.bytes.remaining_capacity().min(piece.len());
        self.bytes.try_extend_from_slice(&piece[..room]).unwrap();
    }

    // The number in decimal.
    pub fn put_number(&mut self, n: usize)
        ensures after { text self.new ≡ kept (text self.old ++ decimal n) }
        ensures short { length (decimal n) ≤ 20 }
    {
        self.put(Buffer::new().format(n).as_bytes());
    }

    pub fn as_bytes(&self) -> &[u8]
        ensures bytes { result.now ≡ text self.now }
        ensures within { length result.now ≤ 4096 }
    {
        self.bytes.as_slice()
    }
}
