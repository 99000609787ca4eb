ghost use Rattle.std.specs.Prelude.{◌≤◌, ◌^◌, ◌+◌, ◌*◌, length, OnOk};
ghost use Rattle.code_layout.specs.Places.{start_of, AreTold};
ghost use Rattle.code_layout.specs.Search.{Rise};
ghost use Rattle.code_layout.specs.Code.{AppendsSearch};

use crate::places::Places;
use crate::words::{push_fork, push_leaf};
use a64_block::break_of;
use a64_code::{A64, XReg};
use ev_graph::{NoMemory, TrapKind};

/// How many words a site takes in a tree, but for the first, which takes 7 less.
const SITE_WORDS: u64 = 15;

/// Appends the words that look the return address up among sites, by halves, and go to its place.
pub fn push_search(
    code: &mut Vec<A64<XReg>>,
    sites: &[u64],
    places: &Places,
) -> Result<(), NoMemory>
    requires places { AreTold places.now }
    requires sites { Rise sites.now }
    requires few { length code.old.items + 15 * length sites.now ≤ 2 ^ 23 }
    ensures { OnOk result (AppendsSearch (start_of places.now) sites.now code.old.items code.new.items) }
{
    if sites.is_empty() {
        code.push(A64::Brk(break_of(TrapKind::BadReturn)))?;
        return Ok(());
    }
    if sites.len() == 1 {
        return push_leaf(code, sites[0], places.start_of(sites[0]));
    }
    let (below, above) = sites.split_at(sites.len() / 2);
    let place = code.len() as u64 + SITE_WORDS * below.len() as u64;
    push_fork(code, above[0], place)?;
    push_search(code, below, places)?;
    push_search(code, above, places)
}
