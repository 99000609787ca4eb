/// Why a pair of events is ordered.
///
/// `Po` to `Fr` are the pairs of one location and those within a thread, `Rfe` to `Coe` those between
/// threads. `Rmw` to `St` are kinds of Armv8, `Ppo` to `Implied` of x86-TSO, and `Rmw` with `Frm` to
/// `Fsc` of the intermediate form.
#[derive(Clone, Copy, Debug, PartialEq, Eq)]
pub enum EdgeKind {
    Po,
    Rf,
    Co,
    Fr,
    Rfe,
    Fre,
    Coe,
    Rmw,
    Dmb,
    Ld,
    St,
    Ppo,
    Mfence,
    Implied,
    Frm,
    Fww,
    Fsc,
}
