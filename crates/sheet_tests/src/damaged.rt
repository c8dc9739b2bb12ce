// Damaged sheets: what they are refused with, and at which byte.
use rules::words::{Layer, Reason};
use sheet::check::check;
use std::process::Abort;

// Two practices with a place each, and three trainees, with lists of 2, 1 and 0 choices.
static THREE: [u8; 16] = [0, 2, 0, 1, 0, 1, 0, 3, 2, 0, 1, 1, 0, 0, 0, 0];

fn accepted(rt: &impl Abort, bytes: &[u8]) {
    assert_eq!(rt; check(bytes), Ok(()));
}

fn refused(rt: &impl Abort, bytes: &[u8], reason: Reason, place: usize) {
    assert_eq!(rt; check(bytes), Err(Layer::Sheet.refusal(reason, place)));
}

#[test]
fn every_front_ends_early(rt: HostRuntime) {
    // n is both the length of a front and the place that it is refused at.
    for n in 0..THREE.len() {
        refused(&rt, &THREE[..n], Reason::SheetEnds, n);
    }
    accepted(&rt, &THREE);
}

#[test]
fn counts_and_places(rt: HostRuntime) {
    accepted(&rt, b"\x00\x00\x00\x00\x00\x00");
    refused(&rt, b"\x00\x00\x00\x00\x00\x00\x00", Reason::BytesFollow, 6);
    refused(&rt, b"\x00\x65", Reason::CountOutOfBounds, 0);
    refused(&rt, b"\x00\x00\x01\x91", Reason::CountOutOfBounds, 2);
    refused(
        &rt,
        b"\x00\x00\x00\x00\x00\x01",
        Reason::CountOutOfBounds,
        4,
    );
    refused(&rt, b"\x00\x01\x00\x00", Reason::PlacesOutOfBounds, 2);
    accepted(&rt, b"\x00\x01\x00\x01\x00\x00\x00\x00");
    accepted(&rt, b"\x00\x01\x01\x90\x00\x00\x00\x00");
    refused(&rt, b"\x00\x01\x01\x91", Reason::PlacesOutOfBounds, 2);
}

#[test]
fn lists(rt: HostRuntime) {
    refused(
        &rt,
        b"\x00\x01\x00\x01\x00\x01\x01\x01",
        Reason::PracticeNotOffered,
        7,
    );
    refused(
        &rt,
        b"\x00\x02\x00\x01\x00\x01\x00\x01\x02\x00\x00",
        Reason::Repeated,
        10,
    );
    refused(
        &rt,
        b"\x00\x01\x00\x01\x00\x01\x0d",
        Reason::CountOutOfBounds,
        6,
    );
    accepted(
        &rt,
        b"\x00\x0c\0\x01\0\x01\0\x01\0\x01\0\x01\0\x01\0\x01\0\x01\0\x01\0\x01\0\x01\0\x01\x00\x01\x0c\x0b\x0a\x09\x08\x07\x06\x05\x04\x03\x02\x01\x00\x00\x00",
    );
}

#[test]
fn filings(rt: HostRuntime) {
    accepted(
        &rt,
        b"\x00\x02\x00\x01\x00\x01\x00\x03\x02\x00\x01\x01\x00\x00\x00\x03\x01\x00\xff",
    );
    refused(
        &rt,
        b"\x00\x02\x00\x01\x00\x01\x00\x03\x02\x00\x01\x01\x00\x00\x00\x01\x00",
        Reason::CountOutOfBounds,
        14,
    );
    refused(
        &rt,
        b"\x00\x02\x00\x01\x00\x01\x00\x03\x02\x00\x01\x01\x00\x00\x00\x03\x01\x02\xff",
        Reason::PracticeNotOffered,
        17,
    );
    refused(
        &rt,
        b"\x00\x02\x00\x01\x00\x01\x00\x03\x02\x00\x01\x01\x00\x00\x00\x00\x00",
        Reason::BytesFollow,
        16,
    );
}
