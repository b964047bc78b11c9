// One core's ready queue.
ghost use Rattle.std.specs.Prelude.{◌≡◌, ◌<◌, [], length};
ghost use Rattle.calendar.specs.Queues.{filed, first, without};
ghost use Rattle.rules.specs.System.{live_limit};
ghost use Rattle.table.specs.Keys.{waiting};
ghost use Rattle.table.specs.Order.{no_later};

use super::{Key, Queue};
use calendar::Calendar;
use rules::LIVE_LIMIT;

#[tactic(auto, unfolding(crate::specs::Keys::waiting))]
impl Queue {
    pub fn new() -> Queue
        ensures { waiting result ≡ [] }
    {
        Queue {
            calendar: Calendar::new(),
            places: [Key::default(); LIVE_LIMIT],
            least: None,
        }
    }

    // Puts a key in, for which there is a place.
    pub fn put(&mut self, key: Key)
        requires { length (waiting self.old) < live_limit }
        ensures { waiting self.new ≡ filed no_later key (waiting self.old) }
    {
        let _ = self.calendar.put(&mut self.places, key);
        self.least = Some(self.least.map_or(key, |least| key.min(least)));
    }

    // Takes one copy of a key out, where it is held.
    pub fn take(&mut self, key: Key)
        ensures { waiting self.new ≡ without no_later key (waiting self.old) }
    {
        let Queue {
            calendar,
            places,
            least,
        } = self;
        let _ = calendar.take_one(places, key);
        *least = calendar.least(places);
    }

    // The key that goes first, or none of an empty queue.
    pub fn least(&self) -> Option<Key>
        ensures { result ≡ first (waiting self.now) }
    {
        self.least
    }
}
