// How many practices, trainees and filed bytes a sheet has.
#[derive(Clone, Copy, PartialEq, Eq, Debug, Default)]
pub(crate) struct Counts {
    pub practices: u16,
    pub trainees: u16,
    pub filed: u16,
}
