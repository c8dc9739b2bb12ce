// A round: a register, and the table of the latest placement given.
use crate::table::Table;

#[derive(Drop)]
pub struct Round<R> {
    pub(crate) register: R,
    pub(crate) table: Table,
}
