// The lines of a script in their order, and what they come to: an opening, calls, messages.
use crate::calls::{Kept, Planned};
use crate::faults::Fault;
use crate::lines::{Line, read};
use crate::pile::Opening;
use rules::words::Practice;
use std::alloc::{AllocError, Global};

/// What a line comes to. Closings and calls are answered in the order of their lines.
#[derive(Clone, Copy)]
pub enum Item {
    Opened,
    Shortened(usize),
    Closed,
    Called,
    // with the line's number
    Faulty(Fault, usize),
}

/// A script: its lines as items, how the round is opened, the practices to be closed, and the calls.
#[derive(Drop)]
pub struct Plan {
    pub items: Vec<Item>,
    pub opening: Option<Opening>,
    pub closed: Vec<Practice>,
    pub calls: Vec<Planned>,
    pub kept: Kept,
}

impl Plan {
    fn new(heap: Global) -> Plan {
        Plan {
            items: Vec::new(heap),
            opening: None,
            closed: Vec::new(heap),
            calls: Vec::new(heap),
            kept: Kept {
                practices: Vec::new(heap),
                offered: Vec::new(heap),
            },
        }
    }

    // One line more.
    fn add(&mut self, heap: Global, line: &[u8]) -> Result<(), Fault> {
        let Some(line) = read(heap, line, &mut self.kept)? else {
            return Ok(());
        };
        let item = match line {
            Line::Open(opening) => self.open(opening)?,
            Line::Short(most) => self.shorten(most)?,
            Line::Close(p) => self.close(p)?,
            Line::Call(call) => self.call(call)?,
        };
        self.items.push(item)?;
        Ok(())
    }

    fn open(&mut self, opening: Opening) -> Result<Item, Fault> {
        if self.opening.is_some() {
            return Err(Fault::TooLate);
        }
        self.opening = Some(opening);
        Ok(Item::Opened)
    }

    // The opening, which may be changed before the first call.
    fn before_calls(&mut self) -> Result<&mut Opening, Fault> {
        if !self.calls.is_empty() {
            return Err(Fault::TooLate);
        }
        self.opening.as_mut().ok_or(Fault::NotOpened)
    }

    // Of several, the shortest counts.
    fn shorten(&mut self, most: usize) -> Result<Item, Fault> {
        let opening = self.before_calls()?;
        opening.most = opening.most.min(u8::try_from(most).unwrap_or(u8::MAX));
        Ok(Item::Shortened(most))
    }

    fn close(&mut self, p: Practice) -> Result<Item, Fault> {
        self.before_calls()?;
        self.closed.push(p)?;
        Ok(Item::Closed)
    }

    fn call(&mut self, call: Planned) -> Result<Item, Fault> {
        if self.opening.is_none() {
            self.kept.forget(call);
            return Err(Fault::NotOpened);
        }
        self.calls.push(call)?;
        Ok(Item::Called)
    }
}

// The plan of a whole script.
pub fn read_script(heap: Global, script: &[u8]) -> Result<Plan, AllocError> {
    let mut plan = Plan::new(heap);
    for (line, number) in script.split(|byte| *byte == b'\n').zip(1..) {
        match plan.add(heap, line) {
            Ok(()) => {}
            Err(Fault::NoMemory(error)) => return Err(error),
            Err(fault) => plan.items.push(Item::Faulty(fault, number))?,
        }
    }
    Ok(plan)
}
