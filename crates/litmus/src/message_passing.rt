ghost use Rattle.std.specs.Prelude.{true, false, Some, None};
ghost use Rattle.ev_graph.specs.declared.events.FenceKind.TheVariants as fence;
ghost use Rattle.order_models.specs.Orders.{Tso as tso_order, Arm as arm_order};
ghost use Rattle.order_models.specs.Consistent.{Consistent};
ghost use Rattle.ev_graph.specs.WellFormed.{WellFormed};
ghost use Rattle.litmus.specs.MessagePassing.{message_passing};

/// x86-TSO forbids message passing: a thread that finds the flag finds the data that was written
/// before it, with no fence at all (Sewell et al., CACM 2010).
pub fn tso_forbids_message_passing()
    ensures { Consistent tso_order true (message_passing None None) → ⊥ }
{}

/// Armv8 allows message passing where nothing keeps the writes or the reads in order
/// (Arm ARM DDI 0487, chapter B2).
pub fn arm_allows_message_passing()
    ensures { Consistent arm_order false (message_passing None None) }
{}

/// On Armv8 a DMB ISHST between the writes and a DMB ISHLD between the reads forbid it
/// (Arm ARM DDI 0487, chapter B2).
pub fn arm_forbids_message_passing_with_fences()
    ensures { Consistent arm_order false (message_passing (Some fence.DmbSt) (Some fence.DmbLd)) → ⊥ }
{}

/// Message passing without fences is a well-formed execution: what is read comes from the sources
/// that it names, and its order of the writes has each of them once.
pub fn message_passing_is_well_formed()
    ensures { WellFormed (λ address. None) (message_passing None None) }
{}
