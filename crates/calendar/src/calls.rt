// The calls of a calendar. What is held is the first of the places, as many as the count says, or all of them where there are fewer; so any places will do.
ghost use Rattle.std.specs.Prelude.{◌≡◌, ◌-◌, ◌<◌, slice_index_or, slice_set};
ghost use Rattle.calendar.specs.Queues.{queue, first, after, without, named, copies, Least};
ghost use Rattle.calendar.specs.Bags.{Bag};
ghost use Rattle.calendar.specs.Places.{held, size, counting, put_answer, put_calendar, put_places, put_queue, OneWritten, less, Kept};

use super::scans::{alike, least_place, place_of};
use super::{Calendar, Order};
use std::mem;
use terms::Refusal;

impl Calendar {
    // Puts one more in, unless the places are full.
    pub fn put<T: Order>(&mut self, places: &mut [T], x: T) -> Result<(), Refusal>
        ensures answer { result ≡ put_answer self.old places.old }
        ensures next { self.new ≡ put_calendar self.old places.old }
        ensures written { places.new ≡ put_places x self.old places.old }
        ensures ordered { queue T.before (held self.new places.new) ≡ put_queue T.before x self.old places.old }
    {
        // A test of its own, which comes before both writes.
        if self.count >= places.len() {
            return Err(Refusal::CalendarFull);
        }
        places[self.count] = x;
        self.count += 1;
        Ok(())
    }

    // The least, or none of an empty calendar.
    pub fn least<T: Order>(&self, places: &[T]) -> Option<T>
        ensures answer { result ≡ first (queue T.before (held self.now places.now)) }
        ensures least { Least T.before (held self.now places.now) result }
    {
        let held = self.held(places);
        least_place(held).map(|place| held[place])
    }

    // Takes the least out.
    pub fn take_least<T: Order>(&mut self, places: &mut [T]) -> Option<T>
        ensures answer { result ≡ first (queue T.before (held self.old places.old)) }
        ensures next { self.new ≡ less result self.old places.old }
        ensures ordered { queue T.before (held self.new places.new) ≡ after (queue T.before (held self.old places.old)) }
        ensures written { OneWritten (size self.old places.old) places.old places.new }
        ensures kept { Kept result places.old places.new }
    {
        let place = least_place(self.held(places))?;
        Some(self.take_at(places, place))
    }

    // Takes one copy of `x` out, where it is held.
    pub fn take_one<T: Order>(&mut self, places: &mut [T], x: T) -> Option<T>
        ensures answer { result ≡ named T.before x (held self.old places.old) }
        ensures next { self.new ≡ less result self.old places.old }
        ensures ordered { queue T.before (held self.new places.new) ≡ without T.before x (queue T.before (held self.old places.old)) }
        ensures written { OneWritten (size self.old places.old) places.old places.new }
        ensures kept { Kept result places.old places.new }
    {
        let place = place_of(self.held(places), x)?;
        Some(self.take_at(places, place))
    }

    // How many copies of `x` are held. Its contract says too, by such counts, what the sorted list of a calendar is.
    pub fn copies_of<T: Order>(&self, places: &[T], x: T) -> usize
        ensures answer { result ≡ copies T.before x (held self.now places.now) }
        ensures meaning { Bag T.before (held self.now places.now) }
    {
        self.held(places).iter().filter(|y| alike(x, **y)).count()
    }

    // The places that are held.
    fn held<'a, T>(&self, places: &'a [T]) -> &'a [T]
        ensures { result.now ≡ held self.now places.now }
    {
        &places[..self.count.min(places.len())]
    }

    // Takes the one at a held place out: the last held one goes into the hole.
    fn take_at<T: Order>(&mut self, places: &mut [T], place: usize) -> T
        requires { place < size self.old places.old }
        ensures answer { result ≡ slice_index_or places.old place result }
        ensures next { self.new ≡ counting (size self.old places.old - 1) }
        ensures written { places.new ≡ slice_set places.old place (slice_index_or places.old (size self.old places.old - 1) result) }
    {
        self.count = self.count.min(places.len()) - 1;
        let last = places[self.count];
        mem::replace(&mut places[place], last)
    }
}
