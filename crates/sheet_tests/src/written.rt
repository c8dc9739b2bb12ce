// Sheets that are opened, asked and written back.
use rules::roll::Roll;
use rules::words::{Layer, Practice, Reason, Trainee};
use sheet::opening::open;
use sheet_writer::write::{rewrite, write};

// Two practices with 1 and 300 places, and three trainees, of whom the first has a seat.
static FILED: [u8; 19] = [0, 2, 0, 1, 1, 44, 0, 3, 2, 0, 1, 1, 0, 0, 0, 3, 1, 255, 255];

#[test]
fn opens(rt: HostRuntime) {
    let sheet = open(&FILED);
    assert!(rt; sheet.trainees() == 3 && sheet.practices() == 2);
    assert_eq!(rt; sheet.places_of(Practice(0)), 1);
    assert_eq!(rt; sheet.places_of(Practice(1)), 300);
    assert_eq!(rt; sheet.places_of(Practice(2)), 0);
    assert_eq!(rt; sheet.list_length(Trainee(0)), 2);
    assert_eq!(rt; sheet.list_length(Trainee(3)), 0);
    assert_eq!(rt; sheet.choice(Trainee(0), 1), Some(Practice(1)));
    assert_eq!(rt; sheet.choice(Trainee(1), 1), None);
    assert_eq!(rt; sheet.position(Trainee(0), Practice(1)), Some(1));
    assert_eq!(rt; sheet.position(Trainee(1), Practice(1)), None);
    assert_eq!(rt; sheet.filed(Trainee(0)), Some(1));
    assert_eq!(rt; sheet.filed(Trainee(2)), Some(255));
    assert_eq!(rt; sheet.filed(Trainee(3)), None);
}

#[test]
fn refused_bytes_open_as_nobody(rt: HostRuntime) {
    let sheet = open(&FILED[0..18]);
    assert!(rt; sheet.trainees() == 0 && sheet.practices() == 0);
    assert_eq!(rt; sheet.filing().len(), 0);
}

#[test]
fn written_back(rt: HostRuntime) {
    let mut buffer = [7; 20];
    assert_eq!(rt; rewrite(&FILED, &mut buffer), Ok(19));
    assert!(rt; buffer[0..19] == FILED[0..19]);
    assert_eq!(rt; buffer[19], 7);
    assert_eq!(rt; rewrite(b"\x00\x00\x00\x00\x00\x00", &mut buffer), Ok(6));
    assert_eq!(rt;
        rewrite(&FILED[0..18], &mut buffer),
        Err(Layer::Sheet.refusal(Reason::SheetEnds, 18))
    );
    assert_eq!(rt;
        rewrite(&FILED, &mut buffer[0..18]),
        Err(Layer::Sheet.refusal(Reason::WrongLength, 19))
    );
}

#[test]
fn refused_filings(rt: HostRuntime) {
    let mut buffer = [7; 20];
    let sheet = open(&FILED);
    assert_eq!(rt;
        write(&sheet, &[1], &mut buffer),
        Err(Layer::Sheet.refusal(Reason::WrongLength, 3))
    );
    assert_eq!(rt;
        write(&sheet, &[1, 2, 3], &mut buffer),
        Err(Layer::Sheet.refusal(Reason::PracticeNotOffered, 1))
    );
    assert_eq!(rt; write(&sheet, &[], &mut buffer), Ok(16));
    assert!(rt; buffer[15] == 0 && buffer[16] == 7);
}
