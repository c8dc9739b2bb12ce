// The report: the placement that allot gives for a sheet, or the refusal.
ghost use Rattle.std.specs.Prelude.{◌≡◌, ◌≤◌, length, Option, MatchResult};
ghost use Rattle.voting.specs.Placements.{Placement};
ghost use Rattle.sheet.specs.Reading.{reading};
ghost use Rattle.allotment.specs.Calls.{Verdict, told};
ghost use Rattle.texts.specs.Text.{text as text_of};
ghost use Rattle.report.specs.Report.{Judged, TellsVerdict, TellsReport, report_text, answer_text, text_outcome};

use crate::hand_over::{answer_text, hand_over};
use crate::seats::put_placement;
use allotment::calls::allot;
use rules::roll::Roll;
use rules::words::{Move, Refusal, Trainee};
use sheet::check::check;
use sheet::opening::open;
use texts::text::Text;

// Allot with slots of its own: never too few, since a roll has at most 400 trainees.
fn allot_all<R: Roll>(roll: &R, seats: &mut [u8; 400]) -> Result<u16, Refusal>
    ensures { (v : Option Placement) × Verdict (R.Roll.entries roll.now) v × (told (R.Roll.entries roll.now) seats.old v ≡ (result, seats.new)) }
{
    let mut waiting = [Trainee::default(); 400];
    let mut moves = [Move::default(); 400];
    allot(roll, &mut waiting, &mut moves, seats)
}

// The placement that allot gives.
fn verdict<R: Roll>(roll: &R) -> Result<Text, Refusal>
    ensures { TellsVerdict (R.Roll.entries roll.now) (answer_text result) }
{
    let mut seats = [255; 400]; // as many as a roll may have, with no heap
    let seated = allot_all(roll, &mut seats)?;
    let mut text = Text::new();
    put_placement(&mut text, seated, &seats[..usize::from(roll.trainees())]);
    Ok(text)
}

fn judged(sheet: &[u8]) -> Result<Text, Refusal>
    ensures { TellsReport (reading sheet.now) (answer_text result) }
{
    check(sheet)?;
    verdict(&open(sheet))
}

// The report of a sheet.
pub fn report_of(sheet: &[u8]) -> Text
    ensures { TellsReport (reading sheet.now) (text_of result) }
{
    answer_text(judged(sheet))
}

// The report of a sheet, in the first bytes of a buffer of at least 4,096.
pub fn report(sheet: &[u8], buffer: &mut [u8]) -> Result<usize, Refusal>
    ensures reports { (v : Option Placement) × (4096 ≤ length buffer.old → Judged (reading sheet.now) v) × (text_outcome (report_text (reading sheet.now) v) buffer.old ≡ (result, buffer.new)) }
    ensures within { MatchResult result (λ n. n ≤ 4096) (λ _. length buffer.old ≤ 4095) }
{
    hand_over(report_of, sheet, buffer)
}
