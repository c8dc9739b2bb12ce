// A row of the table: what one trainee wants.
ghost use Rattle.std.specs.Prelude.{◌≡◌, ◌≤◌, length, take};
ghost use Rattle.assignment.specs.Rows.{choices_in, RowOf};

use rules::words::Practice;

/// A practice of a list, and what a seat there weighs.
#[derive(Clone, Copy, PartialEq, Eq, Debug, Default)]
pub struct Choice {
    pub practice: Practice,
    pub weight: u32,
}

/// The choices of a list, the most wanted first, and what no seat weighs.
// An array and no vector of the library's, since a row can be copied and that vector can't.
#[derive(Clone, Copy, Default)]
pub struct Row {
    pub choices: [Choice; 12],
    pub none: u32,
    pub len: u8,
}

// An array with these choices in front.
#[tactic(auto, using(crate::proofs::Lists::copied))]
fn in_front(choices: &[Choice]) -> [Choice; 12]
    requires { length choices.now ≤ 12 }
    ensures { take (length choices.now) result ≡ choices.now }
{
    let mut array = [Choice::default(); 12];
    array[..choices.len()].copy_from_slice(choices);
    array
}

impl Row {
    // The row of these choices, if there are no more than 12.
    pub(crate) fn of(choices: &[Choice], none: u32) -> Option<Row>
        ensures { RowOf choices.now none result }
    {
        if choices.len() > 12 {
            return None;
        }
        Some(Row {
            choices: in_front(choices),
            none,
            len: choices.len() as u8,
        })
    }

    // The choices that it counts.
    pub(crate) fn list(&self) -> &[Choice]
        ensures { result.now ≡ choices_in self.now }
    {
        self.choices
            .get(..usize::from(self.len))
            .unwrap_or(&self.choices)
    }
}

/// No seat may weigh more.
pub const GREATEST: u32 = 1073741824;
