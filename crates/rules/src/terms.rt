// The terms on which a register takes lists: how long they may be, and of which practices.
ghost use Rattle.std.specs.Prelude.{◌≡◌, ◌≤◌};
ghost use Rattle.rules.specs.Meaning.{Rules, meant, is_open};

use crate::roll::Roll;
use crate::words::Practice;

pub trait Terms: Roll {
    ghost rules: { Self → Rules };

    ghost bounded: { (s : Self) → (rules s).longest ≤ 12 };

    fn longest(&self) -> u8
        ensures { result ≡ (rules self.now).longest };

    fn is_open(&self, p: Practice) -> bool
        ensures { result ≡ is_open (meant Self.Roll.entries rules self.now) p.0 };
}
