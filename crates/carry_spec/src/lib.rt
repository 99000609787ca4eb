//! What it means that an image carries an input: definitions alone, for all that translates, judges and explains.
//! Others rest on `Carries` of `specs/Carries`, on explanations and tame executions (`specs/Explained`), and on the fence plan of a code (`specs/Plan`).
//! Sources: backward and forward simulation of compilers (Leroy, CACM 52(7), 2009); executions with rf and co as in Alglave, Maranget, Tautschnig, TOPLAS 36(2), 2014.
#![tactic(auto)]

mod plan;
mod summary;

pub use plan::BlockPlan;
pub use summary::Summary;
