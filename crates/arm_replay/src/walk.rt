ghost use Rattle.std.specs.Prelude.{◌≡◌, ◌+◌, ◌<◌, ◌≤◌, ◌^◌, ℕ, [], IfOk, MatchResult, Ok, None, drop};
ghost use Rattle.behavior.specs.Tree.{Tree, Gives, Next, Stops};
ghost use Rattle.a64_table.specs.Machine.{AThread};
ghost use Rattle.exec_text.specs.declared.exec_file.GivenThread.{GivenThread as AnyThread};
ghost use Rattle.arm_replay.specs.Memories.{AreDecoded, low_step};
ghost use Rattle.arm_replay.specs.Threads.{a64_start};
ghost use Rattle.arm_replay.specs.Faults.{GoesOn, IsThreadReplay};
ghost use Rattle.arm_replay.specs.Walking.{IsWithin, Keeps, Reaches, Stands, IsCutHere, IsMissingFault, IsWalkFault, StepsTo};

use crate::fault::{ReplayFault, ReplayKind, ReplayPlace};
use crate::made::Made;
use crate::thread::{ImageThread, start_state};
use crate::values::{given_input, given_read, misfit, missing_kind, takes, told_at};
use a64_table::{A64State, ANext, ARow, row};
use ev_graph::{End, List, Stack, ThreadRun, TrapKind};
use exec_text::GivenThread;
use std::alloc::Global;

/// How many instructions a thread may begin.
const MOST_STEPS: u32 = 1_000_000;

/// Where the walk of a thread stands between two words: what the thread holds, what it has made, how
/// many instructions it has begun, and how many values it has taken.
#[derive(Drop)]
pub(crate) struct Walk {
    state: A64State,
    made: Made,
    begun: u32,
    taken: usize,
}

impl ImageThread<'_> {
    /// The fault of this thread at an item.
    fn fault(&self, item: u32, kind: ReplayKind) -> ReplayFault
        ensures { result ≡ ReplayFault.Run (record { thread = self.now.number; item = item; kind = kind }) }
    {
        ReplayFault::Run(ReplayPlace {
            thread: self.number,
            item,
            kind,
        })
    }
}

impl Walk {
    /// The fault of a value that is missing here.
    fn missing(&self, thread: &ImageThread<'_>, given: &GivenThread) -> ReplayFault
        ensures { IsMissingFault thread.now.number self.now.made.count given.now.count result }
    {
        let kind = missing_kind(self.made.count, given.count);
        thread.fault(self.made.count, kind)
    }

    /// One word more: the end of the thread where it comes to one.
    fn step(
        &mut self,
        thread: &ImageThread<'_>,
        given: &GivenThread,
    ) -> Result<Option<End>, ReplayFault>
        requires decoded { AreDecoded thread.now.memory.image.now thread.now.instrs.now }
        requires within { IsWithin given.now self.old }
        ensures steps { (start : AThread) → GoesOn given.now self.old.made.count (drop self.old.taken given.now.values)
            → Stands (low_step thread.now.memory.image.now thread.now.memory.stacks.now) start thread.now.number given.now self.old
            → StepsTo (low_step thread.now.memory.image.now thread.now.memory.stacks.now) start thread.now.number given.now self.new result }
        ensures within { IfOk result (λ _. IsWithin given.now self.new) }
        ensures begun { IfOk result (λ end. end ≡ None → self.new.begun ≡ self.old.begun + 1) }
    {
        let Some(instr) = thread.instr(self.state.at) else {
            return Ok(Some(End::Trap(TrapKind::BadJump)));
        };
        if self.begun == MOST_STEPS {
            return Err(thread.fault(self.made.count, ReplayKind::Steps));
        }
        self.begun += 1;
        let read = given_read(given, self.taken);
        let input = given_input(given, self.taken);
        match row(&instr, &self.state, &thread.memory, read, input) {
            ARow::WantsRead(_) => Err(self.missing(thread, given)),
            ARow::WantsInput => Err(self.missing(thread, given)),
            ARow::Done(_, _, ANext::End(end)) => Ok(Some(end)),
            ARow::Done(made, fence, ANext::State(next)) => {
                if let Some(kind) = misfit(given, self.taken, self.made.count, &made) {
                    let item = told_at(self.made.count, given.count, kind);
                    return Err(thread.fault(item, kind));
                }
                self.made.row(thread.number, self.state.at, &made, fence)?;
                let left = given.values.as_slice().len() - self.taken;
                self.taken += takes(&made).min(left);
                self.state = next;
                Ok(None)
            }
        }
    }
}

impl Walk {
    /// A thread before its first word.
    fn new(alloc: Global, state: A64State) -> Walk
        ensures state { result.state ≡ state }
        ensures made { (k : ℕ) → Keeps k [] result.made }
        ensures none { (result.begun ≡ 0) × (result.taken ≡ 0) }
        ensures within { (given : AnyThread) → IsWithin given result }
    {
        Walk {
            state,
            made: Made::new(alloc),
            begun: 0,
            taken: 0,
        }
    }

    /// Whether a thread is cut here: it has made as much as it is given, and is to be cut then.
    fn is_cut(&self, thread: &ImageThread<'_>, given: &GivenThread) -> Result<bool, ReplayFault>
        requires { IsWithin given.now self.now }
        ensures { IsCutHere thread.now.number given.now self.now.made.count (drop self.now.taken given.now.values) result }
    {
        if self.made.count < given.count {
            return Ok(false);
        }
        if self.taken < given.values.as_slice().len() {
            return Err(thread.fault(self.made.count, ReplayKind::Left));
        }
        Ok(given.end == End::Running)
    }

    /// The run of a thread that has come to an end.
    fn ended(
        self,
        thread: &ImageThread<'_>,
        given: &GivenThread,
        end: End,
    ) -> Result<ThreadRun, ReplayFault>
        requires { IsWithin given.now self }
        ensures { (step : AThread → Tree (Next AThread)) (start : AThread) → GoesOn given.now self.made.count (drop self.taken given.now.values)
            → Reaches step start thread.now.number given.now self (Gives (Stops end))
            → MatchResult result (IsThreadReplay step start thread.now.number given.now) (IsWalkFault step start thread.now.number given.now) }
    {
        if self.made.count < given.count {
            return Err(thread.fault(self.made.count, ReplayKind::Early));
        }
        if end != given.end {
            return Err(thread.fault(self.made.count, ReplayKind::End));
        }
        Ok(self.run(end))
    }

    /// What was made, with its end.
    fn run(self, end: End) -> ThreadRun
        ensures { (result.items ≡ self.made.items.items) × (result.end ≡ end) }
    {
        let Walk { made, .. } = self;
        let Made { items, .. } = made;
        ThreadRun {
            items: List::of(items),
            end,
        }
    }
}

/// The run of a thread on what it is given, which begins at an address; or its first fault.
///
/// It takes time in proportion to the instructions that the thread begins, of which there are a million
/// at most, and memory in proportion to what it makes.
pub(crate) fn walk_thread(
    alloc: Global,
    thread: &ImageThread<'_>,
    at: u64,
    stack: Stack,
    given: &GivenThread,
) -> Result<ThreadRun, ReplayFault>
    requires { AreDecoded thread.now.memory.image.now thread.now.instrs.now }
    ensures { MatchResult result
        (IsThreadReplay (low_step thread.now.memory.image.now thread.now.memory.stacks.now) (a64_start thread.now.number stack at) thread.now.number given.now)
        (IsWalkFault (low_step thread.now.memory.image.now thread.now.memory.stacks.now) (a64_start thread.now.number stack at) thread.now.number given.now) }
{
    let mut walk = Walk::new(alloc, start_state(thread.number, stack, at));
    loop {
        if walk.is_cut(thread, given)? {
            return Ok(walk.run(End::Running));
        }
        if let Some(end) = walk.step(thread, given)? {
            return walk.ended(thread, given, end);
        }
    }
}
