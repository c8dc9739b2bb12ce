// Runs of the work list and of the engine on examples.
#![tactic(auto)]

#[cfg(test)]
mod tests {
    use assignment::place::place;
    use assignment::row::Choice;
    use assignment::table::{NotTaken, Table};
    use rules::words::{Move, Practice, Reason, Trainee};
    use std::process::Abort;
    use std::test::Fail;
    use worklist::WorkList;

    // Freed slots are used again, and a full list refuses and keeps what it has.
    #[test]
    fn takes_from_both_ends(rt: HostRuntime) -> Result<(), Fail> {
        let mut slots = [0u16; 3];
        let mut list = WorkList::new(&mut slots);
        assert!(rt; list.add(1).is_ok());
        assert!(rt; list.add(2).is_ok());
        assert!(rt; list.add(3).is_ok());
        let Err(refusal) = list.add(4) else {
            return Err(Fail::new("a fourth record"));
        };
        assert!(rt; refusal.place == 3);
        assert!(rt; u8::from(refusal.reason) == 9);
        assert_eq!(rt; list.take_oldest(), Some(1));
        assert!(rt; list.add(5).is_ok());
        assert_eq!(rt; list.take_newest(), Some(5));
        assert_eq!(rt; list.take_oldest(), Some(2));
        assert_eq!(rt; list.take_newest(), Some(3));
        assert_eq!(rt; list.take_oldest(), None);
        assert_eq!(rt; list.take_newest(), None);
        Ok(())
    }

    // Practice 0 and then 1, which weigh so.
    fn wants(first: u32, second: u32) -> [Choice; 2] {
        [
            Choice {
                practice: Practice(0),
                weight: first,
            },
            Choice {
                practice: Practice(1),
                weight: second,
            },
        ]
    }

    // Two practices with a place each, for two trainees who both like practice 0 best.
    fn two(rt: &impl Abort) -> Result<Table, Fail> {
        let Some(mut table) = Table::new(&[1, 1]) else {
            return Err(Fail::new("places"));
        };
        assert!(rt; table.add(&wants(5, 4), 0).is_ok());
        assert!(rt; table.add(&wants(5, 1), 0).is_ok());
        Ok(table)
    }

    // A row is refused with the reason, and the table is as it was.
    #[test]
    fn refuses_rows(rt: HostRuntime) -> Result<(), Fail> {
        let mut table = two(&rt)?;
        let twice = [Choice::default(); 2];
        assert_eq!(rt; table.add(&twice, 0), Err(NotTaken::Unfit));
        for _ in 2..400 {
            assert!(rt; table.add(&[], 0).is_ok());
        }
        assert_eq!(rt; table.add(&[], 0), Err(NotTaken::Full));
        Ok(())
    }

    // The first gives way to the second, who gains more by practice 0.
    #[test]
    fn gives_way(rt: HostRuntime) -> Result<(), Fail> {
        let table = two(&rt)?;
        let mut waiting = [Trainee::default(); 2];
        let mut moves = [Move::default(); 2];
        let Ok(placed) = place(&table, &mut waiting, &mut moves) else {
            return Err(Fail::new("slots"));
        };
        assert!(rt; placed.seats[0] == Some(Practice(1)));
        assert!(rt; placed.seats[1] == Some(Practice(0)));
        assert!(rt; placed.seats[2] == None);
        Ok(())
    }

    // One slot for two trainees is too few.
    #[test]
    fn wants_slots(rt: HostRuntime) -> Result<(), Fail> {
        let table = two(&rt)?;
        let mut waiting = [Trainee::default(); 1];
        let mut moves = [Move::default(); 2];
        let Err(refusal) = place(&table, &mut waiting, &mut moves) else {
            return Err(Fail::new("one slot"));
        };
        assert!(rt; refusal.reason == Reason::WrongLength);
        assert!(rt; refusal.place == 2);
        Ok(())
    }
}
