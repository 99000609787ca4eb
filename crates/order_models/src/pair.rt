ghost use Rattle.std.specs.Prelude.{◌≡◌, ◌+◌, ◌-◌, ◌<◌, ◌↔◌, ℕ, List, ◌⊎◌, length, slice_get, slice_range, IsTrue, Some, IfSome, IfNone, Any, All};
ghost use Rattle.ev_graph.specs.declared.events.Item.TheVariants as item;
ghost use Rattle.ev_graph.specs.declared.events.FenceItem.{FenceItem};
ghost use Rattle.ev_graph.specs.declared.events.Access.{Access as AnyAccess};
ghost use Rattle.ev_graph.specs.declared.events.Item.{Item as AnyItem};
ghost use Rattle.ev_graph.specs.Events.{FenceBetween, LockedPairAt, ReadAt, WriteAt, LockedAt};
ghost use Rattle.order_models.specs.Local.{Ends, HasFence, HasNoAccess, IsPair};

use ev_graph::{Access, AccessKind, FenceKind, Item};

/// Two accesses of one thread, the first before the second, and the items between them.
#[derive(Clone, Copy)]
pub struct Pair<'a> {
    pub first: Access,
    pub second: Access,
    pub between: &'a [Item],
}

/// The access at a place, where there is one.
fn access_at(items: &[Item], place: usize) -> Option<Access>
    ensures some { IfSome result (λ a. slice_get items.now place ≡ Some (item.Access a)) }
    ensures none { IfNone result ((a : AnyAccess) → slice_get items.now place ≡ Some (item.Access a) → ⊥) }
{
    match items.get(place) {
        Some(Item::Access(access)) => Some(*access),
        _ => None,
    }
}

/// The pair at two places; None unless accesses stand at both, the first before the second.
pub fn pair_at(items: &[Item], i: usize, j: usize) -> Option<Pair<'_>>
    ensures some { IfSome result (λ p. Ends items.now i j p.first p.second) }
    ensures between { IfSome result (λ p. p.between.now ≡ slice_range items.now (i + 1) j) }
    ensures none { IfNone result ((a b : AnyAccess) → Ends items.now i j a b → ⊥) }
{
    let first = access_at(items, i)?;
    let second = access_at(items, j)?;
    if i < j {
        Some(Pair {
            first,
            second,
            between: &items[i + 1..j],
        })
    } else {
        None
    }
}

fn is_fence(one: &Item, kind: FenceKind) -> bool
    ensures { IsTrue result ↔ ((f : FenceItem) × (one.now ≡ item.Fence f) × (f.kind ≡ kind)) }
{
    match one {
        Item::Fence(fence) => fence.kind == kind,
        _ => false,
    }
}

fn is_access(one: &Item) -> bool
    ensures { IsTrue result ↔ ((a : AnyAccess) × (one.now ≡ item.Access a)) }
{
    matches!(one, Item::Access(_))
}

/// Whether a fence of this kind is among the items.
fn has_fence(items: &[Item], kind: FenceKind) -> bool
    ensures { IsTrue result ↔ HasFence items.now kind }
{
    items.iter().any(|one| is_fence(one, kind))
}

/// Whether no access is among the items.
fn has_no_access(items: &[Item]) -> bool
    ensures { IsTrue result ↔ HasNoAccess items.now }
{
    !items.iter().any(is_access)
}

impl Pair<'_> {
    /// Whether a fence of this kind stands between the two.
    pub fn has_fence(&self, kind: FenceKind) -> bool
        ensures { (items : List AnyItem) (m n : ℕ) → IsPair items m n self.now.first self.now.second self.now.between.now
            → IsTrue result ↔ FenceBetween kind items m n }
    {
        has_fence(self.between, kind)
    }

    /// Whether the two are the halves of one atomic instruction.
    pub fn is_locked_pair(&self) -> bool
        ensures { (items : List AnyItem) (m n : ℕ) → IsPair items m n self.now.first self.now.second self.now.between.now
            → IsTrue result ↔ LockedPairAt items m n }
    {
        self.first.kind == AccessKind::Read
            && self.first.locked
            && self.second.kind == AccessKind::Write
            && self.second.locked
            && has_no_access(self.between)
    }

    /// Whether the first reads.
    pub fn reads_first(&self) -> bool
        ensures { (items : List AnyItem) (m n : ℕ) → IsPair items m n self.now.first self.now.second self.now.between.now
            → IsTrue result ↔ ReadAt items m }
    {
        self.first.kind == AccessKind::Read
    }

    /// Whether the second writes.
    pub fn writes_second(&self) -> bool
        ensures { (items : List AnyItem) (m n : ℕ) → IsPair items m n self.now.first self.now.second self.now.between.now
            → IsTrue result ↔ WriteAt items n }
    {
        self.second.kind == AccessKind::Write
    }

    /// Whether both write.
    fn writes_both(&self) -> bool
        ensures { (items : List AnyItem) (m n : ℕ) → IsPair items m n self.now.first self.now.second self.now.between.now
            → IsTrue result ↔ (WriteAt items m × WriteAt items n) }
    {
        self.first.kind == AccessKind::Write && self.second.kind == AccessKind::Write
    }

    /// Whether the first reads, and a fence of this kind stands between the two.
    pub fn is_read_before(&self, kind: FenceKind) -> bool
        ensures { (items : List AnyItem) (m n : ℕ) → IsPair items m n self.now.first self.now.second self.now.between.now
            → IsTrue result ↔ (ReadAt items m × FenceBetween kind items m n) }
    {
        self.reads_first() && self.has_fence(kind)
    }

    /// Whether both write, and a fence of this kind stands between the two.
    pub fn are_writes_around(&self, kind: FenceKind) -> bool
        ensures { (items : List AnyItem) (m n : ℕ) → IsPair items m n self.now.first self.now.second self.now.between.now
            → IsTrue result ↔ (WriteAt items m × WriteAt items n × FenceBetween kind items m n) }
    {
        self.writes_both() && self.has_fence(kind)
    }

    /// Whether one of the two is locked.
    pub fn is_locked(&self) -> bool
        ensures { (items : List AnyItem) (m n : ℕ) → IsPair items m n self.now.first self.now.second self.now.between.now
            → IsTrue result ↔ (LockedAt items m ⊎ LockedAt items n) }
    {
        self.first.locked || self.second.locked
    }
}
