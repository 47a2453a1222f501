// The addresses of a drop, tested one after another as its frees would be.
#![tactic(auto)]

ghost use Rattle.std.specs.Prelude.{◌≡◌, ◌≤◌};
ghost use Rattle.refusal_rules.specs.RefusalNumbers.{number_if_refused};
ghost use Rattle.heap_rules.specs.Table.{table_length};
ghost use Rattle.call_rules.specs.Drop.{first_address_refusal};
ghost use Rattle.call_drop_addresses.specs.TestedTable.{RunsFit};

use heap_rules::{RUN_OWNER, State, UNUSED};
use refusal_rules::Refusal;

// The refusal of the first bad address, if any is bad. A free clears the mark of its block, or makes the superblocks of its run unused, and no later
// address tells the rest of it: so much in a copy of the table is enough to refuse a block that comes twice. What lies past the table lies past N
// superblocks too.
pub fn first_address_refusal(s: State, addresses: &[u32]) -> Result<(), Refusal>
    requires { (s.setup.superblocks ≤ table_length) × RunsFit s.table }
    ensures { number_if_refused result ≡ first_address_refusal s addresses.now }
{
    let mut t = s.table;
    for &address in addresses {
        let k = block_address::superblock_index(address);
        let Some(&b) = t.get(k) else {
            return Err(Refusal::AddressUnmapped);
        };
        block_refusal::refusal_in(s.setup.superblocks, b, address)?;
        if b.owner == RUN_OWNER {
            t[k..k + usize::from(b.run)].fill(UNUSED);
        } else {
            t[k] = block_address::without_mark(b, address);
        }
    }
    Ok(())
}
