// The greatest sheet: 400 trainees, 100 practices, lists of 12 and a filing.
use rules::words::{Layer, Reason};
use sheet::check::check as check_sheet;
use sheet::opening::open;
use sheet_writer::write::write;

// Its byte at a place: places of 300, the lists from a trainee's own number on, and the last choice of each filed.
fn byte_at(place: usize) -> u8 {
    match place {
        1 => 100,
        2..=201 => 300u16.to_be_bytes()[place % 2],
        202 | 5404 => 1,
        203 | 5405 => 144,
        204..=5403 => match (place - 204) % 13 {
            0 => 12,
            k => (((place - 204) / 13 + k - 1) % 100) as u8,
        },
        5406.. => ((place - 5406 + 11) % 100) as u8,
        _ => 0,
    }
}

fn fill(bytes: &mut [u8]) {
    for (place, byte) in bytes.iter_mut().enumerate() {
        *byte = byte_at(place);
    }
}

#[test]
fn just_fits(rt: HostRuntime) {
    let mut bytes = [0; 5806];
    fill(&mut bytes);
    assert_eq!(rt; check_sheet(&bytes), Ok(()));
    let sheet = open(&bytes);
    let mut buffer = [0; 5806];
    assert_eq!(rt;
        write(&sheet, sheet.filing(), &mut buffer[0..5805]),
        Err(Layer::Sheet.refusal(Reason::WrongLength, 5806))
    );
    assert_eq!(rt; write(&sheet, sheet.filing(), &mut buffer), Ok(5806));
    assert!(rt; bytes == buffer);
}
