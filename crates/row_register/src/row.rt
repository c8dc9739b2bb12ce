// A row: one trainee's list. The caller lends rows and reads them, so their form is fixed: a count and numbers, no vector.

/// As many choices as it counts, the most wanted first; the numbers past them are 0.
#[derive(Clone, Copy, Default)]
pub struct Row {
    pub count: u8,
    pub choices: [u16; 12],
}
