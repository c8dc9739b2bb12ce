// The challenge of a sheet's filed placement: the strongest rival and its majority, or the refusal.
ghost use Rattle.std.specs.Prelude.{◌≡◌, ℕ, ◌≤◌, length, MatchResult};
ghost use Rattle.voting.specs.Placements.{Placement};
ghost use Rattle.sheet.specs.Reading.{reading};
ghost use Rattle.texts.specs.Text.{text as text_of};
ghost use Rattle.report.specs.Report.{Challenged, TellsRival, TellsChallenge, challenge_text, answer_text, text_outcome};

use crate::hand_over::{answer_text, hand_over};
use crate::seats::put_rival;
use allotment::calls::challenge;
use rules::roll::Roll;
use rules::words::Refusal;
use sheet::check::check;
use sheet::opening::open;
use texts::text::Text;

// The strongest rival of what is offered.
fn strongest<R: Roll>(roll: &R, offered: &[u8]) -> Result<Text, Refusal>
    ensures { TellsRival (R.Roll.entries roll.now) offered.now (answer_text result) }
{
    let mut seats = [255; 400]; // as many as a roll may have, with no heap
    let rival = &mut seats[..usize::from(roll.trainees())];
    let majority = challenge(roll, offered, rival)?;
    let mut text = Text::new();
    put_rival(&mut text, majority, rival);
    Ok(text)
}

fn challenged(sheet: &[u8]) -> Result<Text, Refusal>
    ensures { TellsChallenge (reading sheet.now) (answer_text result) }
{
    check(sheet)?;
    let roll = open(sheet);
    strongest(&roll, roll.filing())
}

// The challenge of what a sheet has filed.
pub fn challenge_of(sheet: &[u8]) -> Text
    ensures { TellsChallenge (reading sheet.now) (text_of result) }
{
    answer_text(challenged(sheet))
}

// The challenge of what a sheet has filed, in the first bytes of a buffer of at least 4,096.
pub fn challenge_text(sheet: &[u8], buffer: &mut [u8]) -> Result<usize, Refusal>
    ensures reports { (k : ℕ) × (N : Placement) × (4096 ≤ length buffer.old → Challenged (reading sheet.now) k N) × (text_outcome (challenge_text (reading sheet.now) k N) buffer.old ≡ (result, buffer.new)) }
    ensures within { MatchResult result (λ n. n ≤ 4096) (λ _. length buffer.old ≤ 4095) }
{
    hand_over(challenge_of, sheet, buffer)
}
