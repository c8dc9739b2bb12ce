// The calls of a work list.
ghost use Rattle.std.specs.Prelude.{◌≡◌, ◌+◌, ◌<◌, ◌≤◌, ◌⊎◌, false, [], length, is_ok, None};
ghost use Rattle.worklist.specs.Records.{records, room};
ghost use Rattle.worklist.specs.Outcomes.{add_outcome, oldest_outcome, newest_outcome};

use super::WorkList;
use rules::words::{Layer, Reason, Refusal};

impl<'a, T: Copy> WorkList<'a, T> {
    // No records yet.
    pub fn new(slots: &'a mut [T]) -> WorkList<'a, T>
        ensures empty { records result ≡ [] }
        ensures room { room result ≡ length slots.old }
    {
        WorkList {
            slots,
            head: 0,
            len: 0,
        }
    }

    // The slot that stands k places behind the head, round and round.
    fn slot(&self, k: usize) -> usize
        requires some { 0 < room self.now }
        requires round { k ≤ room self.now }
        ensures within { result < room self.now }
        ensures behind { (result ≡ self.now.head + k) ⊎ (result + room self.now ≡ self.now.head + k) }
    {
        let after = self.slots.len() - self.head;
        if k < after { self.head + k } else { k - after }
    }

    // Puts `x` behind the newest, or refuses where all slots are taken.
    pub fn add(&mut self, x: T) -> Result<(), Refusal>
        ensures outcome { add_outcome (records self.old) (room self.old) x ≡ (result, records self.new) }
        ensures room { room self.new ≡ room self.old }
        ensures kept { is_ok result ≡ false → self.new ≡ self.old }
    {
        let slots = self.slots.len();
        let len = self.len;
        if len == slots {
            return Err(Layer::Round.refusal(Reason::WrongLength, slots));
        }
        let at = self.slot(len);
        self.slots[at] = x;
        self.len += 1;
        Ok(())
    }

    // Takes the oldest off, where there is one.
    pub fn take_oldest(&mut self) -> Option<T>
        ensures outcome { oldest_outcome (records self.old) ≡ (result, records self.new) }
        ensures room { room self.new ≡ room self.old }
        ensures kept { result ≡ None → self.new ≡ self.old }
    {
        if self.len == 0 {
            return None;
        }
        let x = self.slots[self.head];
        self.head = self.slot(1);
        self.len -= 1;
        Some(x)
    }

    // Takes the newest off, where there is one.
    pub fn take_newest(&mut self) -> Option<T>
        ensures outcome { newest_outcome (records self.old) ≡ (result, records self.new) }
        ensures room { room self.new ≡ room self.old }
        ensures kept { result ≡ None → self.new ≡ self.old }
    {
        if self.len == 0 {
            return None;
        }
        let last = self.len - 1;
        let at = self.slot(last);
        self.len = last;
        Some(self.slots[at])
    }
}
