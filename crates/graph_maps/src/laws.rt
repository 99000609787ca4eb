ghost use Rattle.graph_maps.specs.Laws.{ArmIsLimm, LimmIsTso, ArmIsTso, PrivateIsNeedless, CyclesWithoutPrivate, FewerMfences, WellFormedHasSources};

/// What Armv8 allows, the intermediate form allows, over any two executions with the same events.
pub fn arm_is_limm()
    ensures { ArmIsLimm }
{}

/// What the intermediate form allows with the mapping-in fences, x86-TSO allows.
pub fn limm_is_tso()
    ensures { LimmIsTso }
{}

/// What Armv8 allows with the mapping-in fences as DMBs, x86-TSO allows.
pub fn arm_is_tso()
    ensures { ArmIsTso }
{}

/// Two x86 pairs within a thread by way of an unlocked access give one without it.
pub fn private_is_needless()
    ensures { PrivateIsNeedless }
{}

/// A cycle of x86 pairs gives one without private accesses.
pub fn cycles_without_private()
    ensures { CyclesWithoutPrivate }
{}

/// MFENCEs may be left out, and may come and go beside private accesses.
pub fn fewer_mfences()
    ensures { FewerMfences }
{}

/// The sources of a well-formed execution are writes that cover the byte.
pub fn well_formed_has_sources()
    ensures { WellFormedHasSources }
{}
