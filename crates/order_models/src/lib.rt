//! The orders that x86-TSO, the intermediate form and Armv8 keep within a thread, and consistency under them.
//! Others rest on `Consistent`, on `OrderModel::local`, the first kind of the order that a pair has, and on its doors.
//! Sources: Sewell et al., CACM 2010 (x86-TSO); Rocha et al., PLDI 2022 (LIMM); Arm ARM DDI 0487, B2.3 (Armv8).
#![tactic(auto)]

mod arm;
mod doors;
mod edge;
mod limm;
mod model;
mod pair;
mod tso;

pub use arm::Arm;
pub use doors::{Door, Opening, Side};
pub use edge::EdgeKind;
pub use limm::Limm;
pub use model::OrderModel;
pub use tso::Tso;

#[cfg(test)]
mod tests;
