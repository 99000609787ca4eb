ghost use Rattle.std.specs.Prelude.{◌↔◌, IfOk, IsTrue};
ghost use Rattle.ev_graph.specs.Places.{StandsIn};
ghost use Rattle.cfg_walk.specs.Code.{AreJust, IsIncreasing};

use ev_graph::NoMemory;

/// The same addresses in order, each once.
pub(crate) fn sorted_set(mut addresses: Vec<u64>) -> Result<Vec<u64>, NoMemory>
    ensures { IfOk result (λ v. AreJust (StandsIn addresses.items) v.items) }
{
    addresses.sort()?;
    addresses.dedup();
    Ok(addresses)
}

/// Whether the address is one of these, which are in order.
pub(crate) fn has_address(addresses: &[u64], address: u64) -> bool
    ensures { IsIncreasing addresses.now → IsTrue result ↔ StandsIn addresses.now address }
{
    addresses.binary_search(&address).is_ok()
}
