// What was answered, in words: a line of the account each, put into a text, as reports have their lines.
use allotment::bytes::seat_of;
use round::script::Answer;
use rules::words::Refusal;
use texts::text::Text;

// What `put` makes of the value answered, or the refusal.
fn put_answered<T, F: FnOnce(&mut Text, T)>(text: &mut Text, answer: Result<T, Refusal>, put: F)
    requires { F.IsAlwaysCallable put }
{
    match answer {
        Ok(value) => {
            put(text, value);
            text.push(b'\n');
        }
        Err(refusal) => text.put_refusal(refusal),
    }
}

// A call that answers nothing but that it was accepted, in a word.
pub fn put_accepted(text: &mut Text, answer: Result<(), Refusal>, word: &[u8]) {
    put_answered(text, answer, |text, ()| text.put(word));
}

// How long the lists are that are shown.
pub fn put_cut(text: &mut Text, most: usize) {
    text.put(b"lists are cut to ");
    text.put_number(most);
    text.push(b'\n');
}

// A number and the seats of a placement.
fn put_placement(text: &mut Text, answer: Result<u16, Refusal>, word: &[u8], seats: &[u8]) {
    put_answered(text, answer, |text, number| {
        text.put(word);
        text.put_number(usize::from(number));
        for byte in seats {
            text.push(b' ');
            text.put_seat(seat_of(*byte));
        }
    });
}

// The answer of a call; `seats` is its room.
pub fn put_call_answered(text: &mut Text, answer: Answer, seats: &[u8]) {
    match answer {
        Answer::Entered(answer) => put_accepted(text, answer, b"entered"),
        Answer::Placed(answer) => put_accepted(text, answer, b"places set"),
        Answer::Allotted(answer) => put_placement(text, answer, b"seated ", seats),
        Answer::Seated(answer) => put_answered(text, answer, |text, seat| text.put_seat(seat)),
        Answer::Challenged(answer) => put_placement(text, answer, b"majority ", seats),
    }
}
