ghost use Rattle.std.specs.Prelude.{true, false, Some, None};
ghost use Rattle.ev_graph.specs.declared.events.FenceKind.TheVariants as fence;
ghost use Rattle.ev_graph.specs.StoreBuffering.{store_buffering};
ghost use Rattle.order_models.specs.Orders.{Tso as tso_order, Arm as arm_order};
ghost use Rattle.order_models.specs.Consistent.{Consistent};

/// x86-TSO allows store buffering: both threads may read the start (Sewell et al., CACM 2010).
pub fn tso_allows_store_buffering()
    ensures { Consistent tso_order true (store_buffering 0 None) }
{}

/// An MFENCE in each thread forbids it.
pub fn tso_forbids_store_buffering_with_fences()
    ensures { Consistent tso_order true (store_buffering 0 (Some fence.Mfence)) → ⊥ }
{}

/// On Armv8 a full DMB in each thread forbids it.
pub fn arm_forbids_store_buffering_with_fences()
    ensures { Consistent arm_order false (store_buffering 0 (Some fence.DmbFull)) → ⊥ }
{}
