// The ledger tried at its limits.
#![tactic(auto)]

#[cfg(test)]
mod tests {
    use ledger::Ledger;
    use rules::Entry;
    use std::test::Fail;
    use terms::Refusal;

    fn entry(lapse: u32, number: u32, core: u32, parts: u32) -> Entry {
        Entry {
            lapse,
            number,
            core,
            parts,
        }
    }

    // A ledger of the listed entries.
    fn filled(entries: &[Entry]) -> Result<Ledger, Refusal> {
        let mut ledger = Ledger::new();
        for &entry in entries {
            ledger.write(entry)?;
        }
        Ok(ledger)
    }

    #[test]
    fn one_more_than_its_limit_is_refused(rt: HostRuntime) {
        let mut ledger = Ledger::new();
        assert_eq!(rt; ledger.len(), 0);
        for number in 0..128 {
            assert_eq!(rt; ledger.write(entry(1000 - number, number, 0, 1)), Ok(()));
        }
        assert_eq!(rt; ledger.len(), 128);
        for lapse in [0, 1000, u32::MAX] {
            let full = ledger.write(entry(lapse, 1, 1, 7));
            assert_eq!(rt; full.map_err(Refusal::number), Err(22));
            assert_eq!(rt; ledger.len(), 128);
            assert_eq!(rt; ledger.departed(0, 0), 128);
            assert_eq!(rt; ledger.departed(0, 1), 0);
        }
        // One lapses, and there is a place again.
        ledger.purge(873);
        assert_eq!(rt; ledger.len(), 127);
        assert_eq!(rt; ledger.write(entry(2000, 1, 1, 7)), Ok(()));
        assert_eq!(rt; ledger.departed(0, 1), 7);
    }

    #[test]
    fn an_entry_goes_at_its_lapse_tick(rt: HostRuntime) -> Result<(), Fail> {
        let mut ledger = filled(&[
            entry(30, 1, 0, 1),
            entry(10, 2, 0, 2),
            entry(20, 3, 0, 4),
            entry(10, 2, 0, 2),
            entry(11, 4, 0, 8),
        ])?;
        // The clock, and what is left after it.
        for (clock, len, parts) in [
            (9, 5, 17),
            (10, 3, 13),
            (10, 3, 13),
            (11, 2, 5),
            (19, 2, 5),
            (20, 1, 1),
            (29, 1, 1),
            (u32::MAX, 0, 0),
        ] {
            ledger.purge(clock);
            assert_eq!(rt; ledger.len(), len);
            assert_eq!(rt; ledger.departed(0, 0), parts);
        }
        // After all have gone, a new one is seen again.
        assert_eq!(rt; ledger.write(entry(5, 6, 0, 3)), Ok(()));
        ledger.purge(4);
        assert_eq!(rt; ledger.len(), 1);
        ledger.purge(5);
        assert_eq!(rt; ledger.len(), 0);
        Ok(())
    }

    #[test]
    fn parts_are_counted_by_core_until_they_lapse(rt: HostRuntime) -> Result<(), Fail> {
        let ledger = filled(&[
            entry(7, 1, 0, 100),
            entry(7, 1, 0, 100),
            entry(8, 2, 1, 30),
            entry(9, 3, 0, 5),
            entry(u32::MAX, 4, 7, u32::MAX),
            entry(u32::MAX, 5, 7, u32::MAX),
        ])?;
        let table = [
            (6, 0, 205),
            (7, 0, 5),
            (8, 0, 5),
            (9, 0, 0),
            (7, 1, 30),
            (8, 1, 0),
            (0, 2, 0),
            (0, 7, 8_589_934_590),
            (u32::MAX, 7, 0),
        ];
        for (clock, core, parts) in table {
            assert_eq!(rt; ledger.departed(clock, core), parts);
        }
        assert_eq!(rt; ledger.len(), 6);
        Ok(())
    }
}
