// The ready queues of all cores, by the rows whose keys they hold. A row is a plain reservation, so that its core is one of eight is asked here.
ghost use Rattle.std.specs.Prelude.{◌≡◌, ℕ, ◌<◌, true, List, length};
ghost use Rattle.table.specs.declared.keys.Key.{Key};
ghost use Rattle.table.specs.Keys.{filed_on, less_on, waiting_on};

use crate::keys::{Key, Queue};
use crate::server::is_ready;
use rules::{MOST_CORES, Reservation};

// Takes the key of one row out, and files that of the row in its place.
pub fn refile(ready: &mut [Queue; MOST_CORES], old: &Reservation, row: &Reservation)
    requires from { old.now.core < 8 }
    requires to { row.now.core < 8 }
    requires room { (c : ℕ) → c < 8 → length (less_on c old.now (waiting_on c ready.old)) < 64 }
    ensures { (c : ℕ) → c < 8 → (ks : List Key) → waiting_on c ready.old ≡ filed_on c old.now ks → waiting_on c ready.new ≡ filed_on c row.now ks }
{
    if same_key(old, row) {
        return;
    }
    unfile(ready, old);
    file(ready, row);
}

// Takes the key of a ready row out of the queue of its core.
pub fn unfile(ready: &mut [Queue; MOST_CORES], row: &Reservation)
    requires { row.now.core < 8 }
    ensures { (c : ℕ) → c < 8 → waiting_on c ready.new ≡ less_on c row.now (waiting_on c ready.old) }
{
    if is_ready(row) {
        ready[row.core as usize].take(Key::from(row));
    }
}

// Files the key of a ready row in the queue of its core.
fn file(ready: &mut [Queue; MOST_CORES], row: &Reservation)
    requires core { row.now.core < 8 }
    requires room { length (waiting_on row.now.core ready.old) < 64 }
    ensures { (c : ℕ) → c < 8 → waiting_on c ready.new ≡ filed_on c row.now (waiting_on c ready.old) }
{
    if is_ready(row) {
        ready[row.core as usize].put(Key::from(row));
    }
}

// Whether two rows stand alike in the queues.
fn same_key(x: &Reservation, y: &Reservation) -> bool
    ensures { result ≡ true → (c : ℕ) → (ks : List Key) → filed_on c x.now ks ≡ filed_on c y.now ks }
{
    (is_ready(x), x.core, Key::from(x)) == (is_ready(y), y.core, Key::from(y))
}
