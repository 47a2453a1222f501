// The free lists, place by place. They stand in the order storage, which is document 01's term for the memory of all free lists: lent
// 16-bit numbers, 256 places for each superblock. Renewal and clearing are in crate order_renewal.
#![tactic(auto, unfolding(order_rules::specs::Order::place, order_rules::specs::Order::last_filled, order_rules::specs::Order::with_place))]

ghost use Rattle.std.specs.Prelude.{◌≡◌};
ghost use Rattle.order_rules.specs.Order.{place, last_filled, with_place};

use order_rules::PLACES_EACH;

// The places of a superblock, in the width of their count.
const PLACES: u16 = PLACES_EACH as u16;

// What place p of superblock s holds; 0 where the storage has no such place.
fn place_at(order: &[u16], s: u8, p: u8) -> u16
    ensures { result ≡ place order.now s p }
{
    let at = s as usize * PLACES_EACH + p as usize;
    order.get(at).copied().unwrap_or(0)
}

// What the last of the first `filled` places of superblock s holds; 0 where there is no such place.
pub fn last_filled(order: &[u16], s: u8, filled: u16) -> u16
    ensures { result ≡ last_filled order.now s filled }
{
    match filled {
        1..=PLACES => place_at(order, s, (filled - 1) as u8),
        _ => 0,
    }
}

// Puts a block in place p of superblock s, where the storage has that place.
pub fn put_place(order: &mut [u16], s: u32, p: u16, block: u16)
    ensures { order.new ≡ with_place order.old s p block }
{
    let i = s as usize * PLACES_EACH + p as usize;
    // No `get_mut`: once its borrow is over, a proof knows how long the slice is and not what it holds.
    if i < order.len() {
        order[i] = block;
    }
}
