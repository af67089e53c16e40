// The shelf value as bytes.
ghost use Rattle.std.specs.Prelude.{◌≡◌, ◌≤◌, ◌<◌, length, MatchOption};
ghost use Rattle.host.specs.Value.{loss_number, loss_of, shelf_in, with_shelf};

use crate::numbers;
use design::{Loss, Shelf};

// The table stands after eight numbers.
const TABLE_AT: usize = 8 * numbers::SIZE;

// The bytes of a shelf value.
pub const SIZE: usize = TABLE_AT + Shelf::PLACES_MOST;

// The loss with this number: 0 is that of none, and past 256 there is no disk.
fn loss_of(x: usize) -> Option<Loss>
    ensures { MatchOption result (256 < x) (λ loss. (x ≤ 256) × (loss ≡ loss_of x)) }
{
    if x == 0 {
        return Some(Loss::none());
    }
    let disk = u8::try_from(x - 1).ok()?;
    Some(Loss::of(disk))
}

#[tactic(auto, unfolding(crate::specs::Value::loss_number))]
fn loss_number(loss: Loss) -> usize
    ensures { result ≡ loss_number loss }
{
    match loss.lost {
        None => 0,
        Some(d) => usize::from(d) + 1,
    }
}

// The shelf value in these bytes; the empty one, where they are none.
pub fn shelf(bytes: &[u8]) -> Shelf
    ensures { result ≡ shelf_in bytes.now }
{
    if bytes.len() != SIZE {
        return Shelf::empty();
    }
    let Some(loss) = loss_of(numbers::get(bytes, 7)) else {
        return Shelf::empty();
    };
    let mut table = [0; Shelf::PLACES_MOST];
    table.copy_from_slice(&bytes[TABLE_AT..]);
    Shelf {
        v: numbers::get(bytes, 0),
        k: numbers::get(bytes, 1),
        b: numbers::get(bytes, 2),
        T: numbers::get(bytes, 3),
        u: numbers::get(bytes, 4),
        r: numbers::get(bytes, 5),
        lambda: numbers::get(bytes, 6),
        table,
        loss,
    }
}

// Puts a shelf value into the bytes.
pub fn put(bytes: &mut [u8], shelf: Shelf)
    requires { length bytes.old ≡ 2080 }
    ensures { bytes.new ≡ with_shelf bytes.old shelf }
{
    let list = [
        shelf.v,
        shelf.k,
        shelf.b,
        shelf.T,
        shelf.u,
        shelf.r,
        shelf.lambda,
        loss_number(shelf.loss),
    ];
    numbers::put_all(bytes, 0, &list);
    bytes[TABLE_AT..].copy_from_slice(&shelf.table);
}
