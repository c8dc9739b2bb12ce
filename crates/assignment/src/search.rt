// A search: how far it has come from the newcomer.
ghost use Rattle.assignment.specs.Searches.{progress_of, Explored};
ghost use Rattle.assignment.specs.States.{Ready, Allowed-prop};
ghost use Rattle.std.proofs.Props.{props};

use crate::state::State;
use crate::table::Table;
use rules::words::{Move, Trainee};
use worklist::WorkList;

/// How far a search has come: its moves, who waits, and which practices were reached.
// What was explored is held as ∥ ∥₁, since it says of movers and of who waits that one thing or another is so.
#[derive(Drop)]
pub(crate) struct Search<'a, 's> {
    pub(crate) table: &'a Table,
    pub(crate) state: &'a State,
    pub(crate) moves: WorkList<'s, Move>,
    pub(crate) waiting: WorkList<'s, Trainee>,
    pub(crate) reached: [bool; 100], // a mark for each practice that a table may have, with no heap
    ghost ready: { Ready table.now state.now } by { Prim.hlevel (props, Allowed-prop) },
    ghost explored: { ∥ Explored table.now state.now (progress_of moves waiting reached) ∥₁ },
}
