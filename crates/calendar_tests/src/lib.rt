// The calendar tried on the engine's two kinds of element.
#![tactic(auto)]

ghost use Rattle.calendar_tests.specs.Keys.{sooner, lapses, entry_figures};
ghost use Rattle.std.proofs.Common.{rules, arith};
ghost use Rattle.calendar.proofs.Ranks.{total_by};

use calendar::Order;

// As the table's key; an edit turns its order here.
#[derive(Clone, Copy, Debug, PartialEq, Eq, PartialOrd, Ord)]
pub struct Key {
    pub deadline: u32,
    pub number: u32,
}

impl Order for Key {
    ghost before = { sooner };

    ghost total = { Prim.search rules };

    fn at_most(self, key: Key) -> bool {
        self <= key
    }
}

// As the rules' entry, here so that its order may be turned without them.
#[derive(Clone, Copy, Debug, PartialEq, Eq, PartialOrd, Ord)]
pub struct Entry {
    pub lapse: u32,
    pub number: u32,
    pub core: u32,
    pub parts: u32,
}

impl Order for Entry {
    ghost before = { lapses };

    ghost total = { total_by entry_figures (λ x y e. Prim.grind arith) };

    fn at_most(self, entry: Entry) -> bool {
        self <= entry
    }
}

#[cfg(test)]
mod tests {
    use super::*;
    use calendar::Calendar;
    use std::fmt::Debug;
    use std::process::Abort;
    use std::test::Fail;
    use terms::Refusal;

    fn key(deadline: u32, number: u32) -> Key {
        Key { deadline, number }
    }

    // A calendar of the listed elements.
    fn filled<T: Order>(places: &mut [T], xs: &[T]) -> Result<Calendar, Refusal> {
        let mut calendar = Calendar::new();
        for x in xs {
            calendar.put(places, *x)?;
        }
        Ok(calendar)
    }

    // Takes the least as often as there are elements listed, and holds each to the list.
    fn drains<T: Order + PartialEq + Debug>(
        rt: &impl Abort,
        mut calendar: Calendar,
        places: &mut [T],
        order: &[T],
    ) {
        for x in order {
            assert_eq!(rt; calendar.least(places), Some(*x));
            assert_eq!(rt; calendar.take_least(places), Some(*x));
        }
        assert_eq!(rt; calendar.len(), 0);
        assert_eq!(rt; calendar.take_least(places), None);
    }

    #[test]
    fn the_least_comes_first(rt: HostRuntime) -> Result<(), Fail> {
        let keys = [
            key(9, 1),
            key(3, 7),
            key(3, 2),
            key(12, 4),
            key(3, 7),
            key(0, 5),
        ];
        let order = [
            key(0, 5),
            key(3, 2),
            key(3, 7),
            key(3, 7),
            key(9, 1),
            key(12, 4),
        ];
        let mut places = [key(0, 0); 6];
        let calendar = filled(&mut places, &keys)?;
        assert_eq!(rt; calendar.len(), 6);
        drains(&rt, calendar, &mut places, &order);
        Ok(())
    }

    // Takes copies of a key, one by one, until as many as listed are left each time.
    fn takes(
        rt: &impl Abort,
        calendar: &mut Calendar,
        places: &mut [Key],
        k: Key,
        lefts: &[usize],
    ) {
        for left in lefts {
            assert_eq!(rt; calendar.take_one(places, k), Some(k));
            assert_eq!(rt; calendar.copies_of(places, k), *left);
        }
        assert_eq!(rt; calendar.take_one(places, k), None);
    }

    #[test]
    fn equal_elements_are_counted(rt: HostRuntime) -> Result<(), Fail> {
        let keys = [key(4, 1), key(4, 1), key(2, 1), key(4, 1)];
        let mut places = [key(0, 0); 5];
        let mut calendar = filled(&mut places, &keys)?;
        takes(&rt, &mut calendar, &mut places, key(4, 1), &[2, 1, 0]);
        drains(&rt, calendar, &mut places, &[key(2, 1)]);
        Ok(())
    }

    #[test]
    fn an_empty_calendar_has_none(rt: HostRuntime) {
        let mut places = [key(7, 7); 3];
        let mut calendar = Calendar::new();
        assert_eq!(rt; calendar.len(), 0);
        assert_eq!(rt; calendar.least(&places), None);
        assert_eq!(rt; calendar.take_least(&mut places), None);
        assert_eq!(rt; calendar.take_one(&mut places, key(7, 7)), None);
        assert_eq!(rt; calendar.copies_of(&places, key(7, 7)), 0);
        assert_eq!(rt; calendar.len(), 0);
        assert_eq!(rt; places, [key(7, 7); 3]);
    }

    #[test]
    fn full_places_refuse(rt: HostRuntime) -> Result<(), Fail> {
        let mut places = [key(0, 0); 2];
        let mut calendar = filled(&mut places, &[key(5, 1), key(6, 1)])?;
        assert_eq!(rt;
            calendar.put(&mut places, key(1, 1)),
            Err(Refusal::CalendarFull)
        );
        assert_eq!(rt; Refusal::CalendarFull.number(), 23);
        assert_eq!(rt; calendar.len(), 2);
        assert_eq!(rt; places, [key(5, 1), key(6, 1)]);
        drains(&rt, calendar, &mut places, &[key(5, 1), key(6, 1)]);
        Ok(())
    }

    #[test]
    fn one_not_held_changes_nothing(rt: HostRuntime) -> Result<(), Fail> {
        let mut places = [key(0, 0); 3];
        let mut calendar = filled(&mut places, &[key(5, 1), key(6, 1)])?;
        takes(&rt, &mut calendar, &mut places, key(5, 2), &[]);
        takes(&rt, &mut calendar, &mut places, key(4, 1), &[]);
        takes(&rt, &mut calendar, &mut places, key(0, 0), &[]);
        assert_eq!(rt; calendar.len(), 2);
        assert_eq!(rt; places, [key(5, 1), key(6, 1), key(0, 0)]);
        Ok(())
    }

    #[test]
    fn a_take_fills_the_hole_with_the_last(rt: HostRuntime) -> Result<(), Fail> {
        let mut places = [key(0, 0); 4];
        let mut calendar = filled(&mut places, &[key(5, 1), key(2, 1), key(8, 1)])?;
        assert_eq!(rt; calendar.take_least(&mut places), Some(key(2, 1)));
        assert_eq!(rt; places, [key(5, 1), key(8, 1), key(8, 1), key(0, 0)]);
        assert_eq!(rt; calendar.put(&mut places, key(1, 1)), Ok(()));
        assert_eq!(rt; places, [key(5, 1), key(8, 1), key(1, 1), key(0, 0)]);
        Ok(())
    }

    // Fewer places than were filled: what is held is all of them.
    #[test]
    fn fewer_places_are_all_held(rt: HostRuntime) -> Result<(), Fail> {
        let mut places = [key(0, 0); 4];
        let mut calendar = filled(&mut places, &[key(9, 1), key(8, 1), key(1, 1), key(2, 1)])?;
        let mut few = [key(9, 1), key(8, 1)];
        assert_eq!(rt; calendar.least(&few), Some(key(8, 1)));
        assert_eq!(rt; calendar.copies_of(&few, key(1, 1)), 0);
        assert_eq!(rt;
            calendar.put(&mut few, key(3, 1)),
            Err(Refusal::CalendarFull)
        );
        assert_eq!(rt; calendar.take_one(&mut few, key(1, 1)), None);
        assert_eq!(rt; calendar.len(), 4);
        assert_eq!(rt; calendar.take_least(&mut few), Some(key(8, 1)));
        assert_eq!(rt; calendar.len(), 1);
        drains(&rt, calendar, &mut few, &[key(9, 1)]);
        Ok(())
    }

    fn weight(k: Key) -> u64 {
        u64::from(k.deadline) * 8 + u64::from(k.number)
    }

    // Puts keys that look random until the places are full, and answers their weight.
    fn scatter(calendar: &mut Calendar, places: &mut [Key]) -> u64 {
        let mut seed: u32 = 12345;
        let mut sum: u64 = 0;
        for _ in 0..places.len() {
            seed = seed.wrapping_mul(1_664_525).wrapping_add(1_013_904_223);
            let k = key(seed >> 28, seed >> 24 & 7);
            if calendar.put(places, k).is_ok() {
                sum = sum.wrapping_add(weight(k));
            }
        }
        sum
    }

    // Takes all out, each at most the next, and answers their weight.
    fn gather(rt: &impl Abort, calendar: &mut Calendar, places: &mut [Key]) -> Result<u64, Fail> {
        let mut last = key(0, 0);
        let mut sum: u64 = 0;
        for held in (1..=places.len()).rev() {
            assert_eq!(rt; calendar.len(), held);
            let k = calendar.take_least(places).ok_or("lost")?;
            assert!(rt; last.at_most(k));
            sum = sum.wrapping_add(weight(k));
            last = k;
        }
        Ok(sum)
    }

    #[test]
    fn a_long_run_stays_in_order(rt: HostRuntime) -> Result<(), Fail> {
        let mut places = [key(0, 0); 200];
        let mut calendar = Calendar::new();
        let put = scatter(&mut calendar, &mut places);
        let taken = gather(&rt, &mut calendar, &mut places)?;
        assert_eq!(rt; taken, put);
        assert_eq!(rt; calendar.least(&places), None);
        Ok(())
    }

    fn entry(lapse: u32, number: u32, core: u32, parts: u32) -> Entry {
        Entry {
            lapse,
            number,
            core,
            parts,
        }
    }

    #[test]
    fn entries_go_by_their_figures_in_turn(rt: HostRuntime) -> Result<(), Fail> {
        let a = entry(1, 9, 9, 9);
        let b = entry(2, 1, 9, 9);
        let c = entry(2, 2, 0, 9);
        let d = entry(2, 2, 1, 3);
        let e = entry(2, 2, 1, 4);
        let mut places = [a; 5];
        let calendar = filled(&mut places, &[d, b, e, a, c])?;
        drains(&rt, calendar, &mut places, &[a, b, c, d, e]);
        Ok(())
    }
}
