// Free lists written whole, in the order storage, which is document 01's term for the memory of all free lists: a superblock's list
// renewed, and the storage cleared for a new setup.
#![tactic(auto, using(crate::proofs::RenewedLaws::renewed_by_places), unfolding(order_rules::specs::Order::renewed, order_rules::specs::Order::cleared))]

ghost use Rattle.std.specs.Prelude.{◌≡◌};
ghost use Rattle.order_rules.specs.Order.{renewed, cleared};

use order_rules::PLACES_EACH;

// Puts n - 1 - j in place j of superblock s for each j below n, where it has n places: block 0 comes to be the last.
pub fn renew_order(order: &mut [u16], s: u8, n: u16)
    ensures { order.new ≡ renewed order.old s n }
{
    let base = s as usize * PLACES_EACH;
    let m = n as usize;
    if m > PLACES_EACH || base + m > order.len() {
        return;
    }
    for (j, place) in order[base..base + m].iter_mut().enumerate() {
        *place = (m - 1 - j) as u16;
    }
}

// Sets the first n places to 0, or all of them where there are fewer.
pub fn clear_order(order: &mut [u16], n: usize)
    ensures { order.new ≡ cleared order.old n }
{
    let m = n.min(order.len());
    order[..m].fill(0);
}
