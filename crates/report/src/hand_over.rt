// An answer as text, and a text in the caller's buffer.
ghost use Rattle.std.specs.Prelude.{◌≡◌, ◌≤◌, length, MatchResult};
ghost use Rattle.std.specs.Fn.{FnOnceReturnsAt};
ghost use Rattle.texts.specs.declared.text.Text.{Text};
ghost use Rattle.texts.specs.Text.{text};
ghost use Rattle.texts.specs.Lines.{line, refusal_words};
ghost use Rattle.report.specs.Report.{answer_text, text_outcome};

use rules::words::{Layer, Reason, Refusal};
use texts::text::Text;

fn refusal_text(refusal: Refusal) -> Text
    ensures { text result ≡ line (refusal_words refusal) }
{
    let mut text = Text::new();
    text.put_refusal(refusal);
    text
}

// The text of an answer, or of its refusal.
pub(crate) fn answer_text(answer: Result<Text, Refusal>) -> Text
    ensures { text result ≡ answer_text answer }
{
    answer.unwrap_or_else(refusal_text)
}

// Asks for the text only where the buffer has at least 4,096 bytes. That an answer is at most 4,096 stands in three contracts: it speaks
// of answer and buffer together, which no type holds.
pub(crate) fn hand_over<F: FnOnce(&[u8]) -> Text>(
    text_of: F,
    sheet: &[u8],
    buffer: &mut [u8],
) -> Result<usize, Refusal>
    requires { F.IsAlwaysCallable text_of }
    ensures reports { (t : Text) × (4096 ≤ length buffer.old → FnOnceReturnsAt F.FnOnce text_of sheet.now t) × (text_outcome (text t) buffer.old ≡ (result, buffer.new)) }
    ensures within { MatchResult result (λ n. n ≤ 4096) (λ _. length buffer.old ≤ 4095) }
{
    if buffer.len() < 4096 {
        return Err(Layer::Round.refusal(Reason::WrongLength, 4096));
    }
    let text = text_of(sheet);
    let bytes = text.as_bytes();
    buffer[..bytes.len()].copy_from_slice(bytes);
    Ok(bytes.len())
}
