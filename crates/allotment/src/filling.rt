// The table of the engine is filled from lists and a weighing.
ghost use Rattle.std.specs.Prelude.{◌≡◌, ℕ, ◌^◌, ◌<◌, ◌≤◌, map, length, Some, slice_index_or};
ghost use Rattle.rules.specs.Questions.{numbers};
ghost use Rattle.assignment.specs.declared.row.Row.{Row};
ghost use Rattle.assignment.specs.Tables.{entries as opened, Added};
ghost use Rattle.allotment.specs.Copies.{entries};
ghost use Rattle.allotment.specs.Tabled.{Weighed, Tabled, by_lists, choice_by, emptied};
ghost use Rattle.allotment.specs.Vectors.{no_practice};

use crate::lists::Lists;
use crate::weights::Weigh;
use arrayvec::ArrayVec;
use assignment::row::Choice;
use assignment::table::{NotTaken, Table};
use rules::words::{Practice, Trainee};

// What each choice of a trainee with this list weighs; by pushes, as a roll is read.
fn choices_of<W: Weigh>(weighing: &W, t: Trainee, list: &[Practice]) -> ArrayVec<Choice, 12>
    requires { length list.now ≤ 12 }
    ensures exact { result.items ≡ map (choice_by (W.Weigh.weighs weighing.now t.0 (numbers list.now))) list.now }
    ensures modest { (i : ℕ) → i < length list.now → W.Weigh.weighs weighing.now t.0 (numbers list.now) (Some (slice_index_or list.now i no_practice).0) ≤ 2 ^ 30 }
{
    let mut choices = ArrayVec::new();
    for p in list {
        choices.push(Choice {
            practice: *p,
            weight: weighing.weigh(t, list, Some(*p)),
        });
    }
    choices
}

// Adds the row of a trainee with this list, where it may stand.
fn add_row<W: Weigh>(
    weighing: &W,
    t: Trainee,
    list: &[Practice],
    table: &mut Table,
) -> Result<(), NotTaken>
    requires { length list.now ≤ 12 }
    ensures { (r : Row) × Weighed (numbers list.now) (W.Weigh.weighs weighing.now t.0 (numbers list.now)) r × Added table.old r result table.new }
{
    let choices = choices_of(weighing, t, list);
    table.add(&choices, weighing.weigh(t, list, None))
}

// Adds the row of each trainee.
fn fill<W: Weigh>(lists: &Lists, weighing: &W, table: &mut Table)
    requires { opened table.old ≡ emptied (entries lists.now) }
    ensures { Tabled (entries lists.now) (by_lists (entries lists.now) (W.Weigh.weighs weighing.now)) table.new }
{
    for (t, list) in lists.lists.iter().enumerate() {
        add_row(weighing, Trainee(t as u16), list, table).unwrap();
    }
}

// The table comes to hold a roll that was read, with these weights: where it lies, since a table is too large to be handed back.
pub(crate) fn hold<W: Weigh>(lists: &Lists, weighing: &W, table: &mut Table)
    ensures { Tabled (entries lists.now) (by_lists (entries lists.now) (W.Weigh.weighs weighing.now)) table.new }
{
    let _ = table.open(&lists.places);
    fill(lists, weighing, table);
}
