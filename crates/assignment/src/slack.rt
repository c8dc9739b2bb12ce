// How far the prices can go up after a search that found no end.
ghost use Rattle.std.specs.Prelude.{◌<◌, ◌≤◌};
ghost use Rattle.assignment.specs.Raises.{Spare, Slack};
ghost use Rattle.assignment.specs.Searches.{Closed, Stuck};
ghost use Rattle.assignment.specs.States.{trainees_in};

use crate::prices::is_inside;
use crate::search::Search;

impl Search<'_, '_> {
    // The least that a seat of t that was not reached lacks to be tight, or `most`.
    fn row_slack(&self, t: usize, most: u32) -> u32
        requires known { t < trainees_in self.now.table.now }
        requires closed { Closed self.now.table.now self.now.state.now self.now.reached t }
        requires some { 0 < most }
        ensures some { 0 < result }
        ensures most { result ≤ most }
        ensures spare { Spare self.now.table.now self.now.state.now self.now.reached t result }
    {
        let row = self.table.row(t);
        let mut d = most.min(self.state.trainees[t].value - row.none);
        for choice in row.list() {
            if !self.reached[choice.practice.0 as usize] {
                d = d.min(self.gap(t, *choice));
            }
        }
        d
    }

    // The least that a seat that was not reached lacks to be tight for one who was reached.
    pub(crate) fn slack(&self) -> u32
        requires { Stuck self.now.table.now self.now.state.now self.now.reached }
        ensures some { 0 < result }
        ensures slack { Slack self.now.table.now self.now.state.now self.now.reached result }
    {
        let newcomer = self.state.newcomer;
        let mut d = u32::MAX;
        for (t, trainee) in self.state.trainees[..=newcomer].iter().enumerate() {
            if t == newcomer || is_inside(&self.reached, trainee.seat) {
                d = self.row_slack(t, d);
            }
        }
        d
    }
}
