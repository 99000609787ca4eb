ghost use Rattle.std.specs.Prelude.{◌≡◌, ◌++◌, OnOk};
ghost use Rattle.lift_alu.specs.Flags.{condition_formula};
ghost use Rattle.lift_alu.specs.Formulas.{Lifting, done, keeps};
ghost use Rattle.lift_alu.specs.Lifted.{takes_in, puts_out, calls, jumps};
ghost use Rattle.lift_alu.specs.SoFar.{so_far};

use crate::access::Site;
use crate::builder::Builder;
use crate::flags::Condition;
use ev_graph::NoMemory;
use limm_ir::IrStep;
use x64_syntax::{Cond, Flow};

impl Builder {
    /// A value comes in for RAX.
    fn take_in(&mut self) -> Result<(), NoMemory>
        ensures { OnOk result ((rest : Lifting) → so_far self.old (takes_in rest) ≡ so_far self.new rest) }
    {
        self.push(IrStep::Input)?;
        Ok(())
    }

    /// The value of RDI goes out.
    fn put_out(&mut self) -> Result<(), NoMemory>
        ensures { OnOk result ((rest : Lifting) → so_far self.old (puts_out rest) ≡ so_far self.new rest) }
    {
        self.push(IrStep::Output)?;
        Ok(())
    }

    /// CALL: the address behind it is written below the stack. A call of a listed function leaves
    /// the stack as it was, and then a value comes in or goes out.
    pub fn call(&mut self, site: Site, flow: Flow) -> Result<(), NoMemory>
        ensures { OnOk result (so_far self.old (calls site.at site.after flow) ≡ so_far self.new done) }
    {
        let below = self.write_return(site)?;
        match flow {
            Flow::ListedIn => self.take_in(),
            Flow::ListedOut => self.put_out(),
            Flow::Plain | Flow::TableJump => self.begin_stack(below),
        }
    }

    /// JMP. A jump to a listed function lets a value in or out, and returns.
    pub fn jump(&mut self, site: Site, flow: Flow) -> Result<(), NoMemory>
        ensures { OnOk result (so_far self.old (jumps site.at site.after flow) ≡ so_far self.new done) }
    {
        match flow {
            Flow::ListedIn => {
                self.take_in()?;
                self.pop_return(site)
            }
            Flow::ListedOut => {
                self.put_out()?;
                self.pop_return(site)
            }
            Flow::Plain | Flow::TableJump => Ok(()),
        }
    }

    /// Jcc: its condition is kept for the end of the block.
    pub fn keep_condition(&mut self, condition: Cond) -> Result<(), NoMemory>
        ensures { OnOk result (so_far self.old (keeps (condition_formula condition.code) (λ v. done)) ≡ so_far self.new done) }
    {
        self.keep(Condition {
            code: condition.code,
        })?;
        Ok(())
    }
}
