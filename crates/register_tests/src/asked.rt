// What any register is asked.
use rules::register::Register;
use rules::roll::Roll;
use rules::terms::Terms;
use rules::words::{Layer, Practice, Refusal, Trainee};
use std::array;
use std::process::Abort;

pub fn refused(r: Result<(), Refusal>, number: u8, place: usize) -> bool {
    r.is_err_and(|e| {
        u8::from(e.reason) == number && e.layer == Layer::Register && e.place == place
    })
}

pub fn places_at_the_bounds<R: Register>(rt: &impl Abort, r: &mut R) {
    assert!(rt; refused(r.places(Practice(1), 0), 4, 1));
    assert!(rt; r.places(Practice(1), 1).is_ok());
    assert!(rt; r.places_of(Practice(1)) == 1);
    assert!(rt; r.places(Practice(1), 400).is_ok());
    assert!(rt; refused(r.places(Practice(1), 401), 4, 1));
    assert!(rt; refused(r.places(Practice(1), 65535), 4, 1));
    assert!(rt; r.places_of(Practice(1)) == 400);
    assert!(rt; refused(r.places(Practice(65535), 0), 8, 65535));
}

// A list of 13 choices, the practices 0 to 12.
pub fn thirteen() -> [Practice; 13] {
    array::from_fn(|i| Practice(i as u16))
}

// Of a register that takes lists of 12 and has practices 0 to 12 alone.
pub fn lists_at_the_bounds<R: Register>(rt: &impl Abort, r: &mut R) {
    let long = thirteen();
    assert!(rt; r.enter(Trainee(1), &long[..12]).is_ok());
    assert!(rt; refused(r.enter(Trainee(1), &long), 3, 12));
    assert!(rt; refused(r.enter(Trainee(65535), &long), 7, 65535));
    assert!(rt; refused(r.enter(Trainee(1), &[Practice(3), Practice(65535)]), 5, 1));
    assert!(rt; refused(r.enter(Trainee(1), &[Practice(3), Practice(13)]), 5, 1));
    assert!(rt;
        refused(
            r.enter(Trainee(1), &[Practice(3), Practice(4), Practice(3)]),
            6,
            2,
        )
    );
    assert!(rt; r.list_length(Trainee(1)) == 12);
    assert!(rt; r.choice(Trainee(1), 11) == Some(Practice(11)));
}
