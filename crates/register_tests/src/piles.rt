// Piles of layers, made in code that is generic in the register below.
use crate::asked::*;
use layers::closed::Closed;
use layers::short::Short;
use rank_grid::grid::RankGrid;
use row_register::row::Row;
use row_register::table::RowRegister;
use rules::register::Register;
use rules::words::{Practice, Trainee};
use std::process::Abort;

// Lists of 3 are taken, and practice 2 is closed: asked of the top of a pile.
fn shows_three_without_2<R: Register>(rt: &impl Abort, r: &mut R) {
    let t = Trainee(1);
    assert!(rt; r.longest() == 3 && r.is_open(Practice(0)) && !r.is_open(Practice(2)));
    assert!(rt; refused(r.enter(t, &thirteen()[..4]), 3, 3));
    assert!(rt; refused(r.enter(t, &[Practice(1), Practice(2)]), 5, 1));
    assert!(rt; refused(r.enter(t, &[Practice(1), Practice(1), Practice(2)]), 6, 1));
    assert!(rt;
        r.enter(t, &[Practice(12), Practice(3), Practice(0)])
            .is_ok()
    );
    assert!(rt;
        r.list_length(t) == 3
            && r.choice(t, 0) == Some(Practice(12))
            && r.choice(t, 2) == Some(Practice(0))
    );
}

// A list of 12 that was entered below is shown as 0 1 3.
fn shows_what_stood<R: Register>(rt: &impl Abort, r: &mut R) {
    let t = Trainee(0);
    assert!(rt;
        r.list_length(t) == 3
            && r.choice(t, 1) == Some(Practice(1))
            && r.choice(t, 2) == Some(Practice(3))
    );
    assert!(rt; r.choice(t, 3) == None && r.position(t, Practice(2)) == None);
    assert!(rt; r.position(t, Practice(3)) == Some(2) && r.position(t, Practice(4)) == None);
}

// All that the top of a pile with lists of 3 and without practice 2 is asked.
fn answers_for_three<R: Register>(rt: &impl Abort, r: &mut R) {
    shows_what_stood(rt, r);
    places_at_the_bounds(rt, r);
    shows_three_without_2(rt, r);
}

fn closes_2<R: Register>(rt: &impl Abort, layer: &mut Closed<R>) {
    assert!(rt; refused(layer.close(Practice(13)), 8, 13));
    assert!(rt; layer.close(Practice(2)).is_ok());
    assert!(rt; layer.close(Practice(2)).is_ok());
}

// Practice 2 is closed.
fn without_2<R: Register>(below: R) -> Closed<R> {
    let mut layer = Closed::new(below);
    let _ = layer.close(Practice(2));
    layer
}

fn enters_twelve<R: Register>(rt: &impl Abort, r: &mut R) {
    assert!(rt; r.enter(Trainee(0), &thirteen()[..12]).is_ok());
}

fn closing<R: Register>(rt: &impl Abort, below: &mut R) {
    let mut layer = Closed::new(below);
    closes_2(rt, &mut layer);
}

fn short_over_closed<R: Register>(rt: &impl Abort, below: &mut R) {
    let mut pile = Short::new(without_2(below), 3);
    answers_for_three(rt, &mut pile);
}

// The shorter of two Shorts counts, and a number above 12 counts as 12.
fn closed_over_shorts<R: Register>(rt: &impl Abort, below: &mut R) {
    let mut pile = without_2(Short::new(Short::new(below, 255), 4));
    shows_what_stood(rt, &mut pile);
}

fn on_grid<R: Register>(rt: &impl Abort, r: &mut R) {
    enters_twelve(rt, r);
    closing(rt, r);
    short_over_closed(rt, r);
}

fn on_rows<R: Register>(rt: &impl Abort, r: &mut R) {
    enters_twelve(rt, r);
    closed_over_shorts(rt, r);
}

#[test]
fn short_over_closed_over_grid(rt: HostRuntime) {
    let mut cells = [9u8; 26];
    let mut grid = RankGrid::open(13, 2, &mut cells);
    on_grid(&rt, &mut grid);
}

#[test]
fn closed_over_short_over_rows(rt: HostRuntime) {
    let mut rows = [Row::default(); 2];
    let mut register = RowRegister::open(13, 2, &mut rows);
    on_rows(&rt, &mut register);
}
