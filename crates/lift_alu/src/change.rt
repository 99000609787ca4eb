ghost use Rattle.std.specs.Prelude.{◌≡◌, ℕ, ◌++◌, IfOk, OnOk};
ghost use Rattle.x64_syntax.specs.declared.instr.AluOp.TheVariants as op;
ghost use Rattle.lift_alu.specs.Formulas.{Formula, Lifting, Kept, done, keeps};
ghost use Rattle.lift_alu.specs.Lifted.{Place, finds, reads_there, result as result_of, flags_of, compares, combines, lifts_alu, exchanges, adds_exchanged, pushes, pops, leaves_frame};
ghost use Rattle.lift_alu.specs.SoFar.{so_far};
ghost use Rattle.lift_alu.specs.There.{place_of};

use crate::access::{Site, There};
use crate::builder::Builder;
use crate::flags::{CARRY, DifferenceOverflow, SumOverflow};
use crate::formula::{Constant, FlagNow, Operate, operation};
use crate::operands::Clean;
use ev_graph::NoMemory;
use limm_ir::{IrOp, Temp};
use x64_syntax::{AluOp, Operand, Width};

/// An operand that is read and changed: where it is, and what is there.
#[derive(Clone, Copy)]
pub(crate) struct Change {
    pub there: There,
    pub value: Temp,
}

/// A sum or a difference of two values, cut to a width.
fn cut<A, B>(width: Width, op: IrOp, first: A, second: B) -> Clean<Operate<A, B>>
    ensures { result ≡ record { width = width; value = record { op = op; first = first; second = second } } }
{
    Clean {
        width,
        value: operation(op, first, second),
    }
}

impl Builder {
    /// Finds and reads an operand that is to be changed.
    pub fn begin_change(
        &mut self,
        site: Site,
        width: Width,
        to: &Operand,
    ) -> Result<Change, NoMemory>
        ensures { IfOk result (λ change. (rest : Place → Formula → Lifting) → so_far self.old (finds site.at site.after to.now (λ there. reads_there site.at site.after width there (rest there))) ≡ so_far self.new (rest (place_of change.there) (Kept change.value.0))) }
    {
        let there = self.find(site, to)?;
        let value = self.read_there(site, width, there)?;
        Ok(Change { there, value })
    }

    /// Keeps the result of an operation on two values.
    pub fn keep_result(
        &mut self,
        op: AluOp,
        width: Width,
        a: Temp,
        b: Temp,
    ) -> Result<Temp, NoMemory>
        ensures { IfOk result (λ t. (at after : ℕ) (rest : Formula → Lifting) → so_far self.old (keeps (result_of at after op width (Kept a.0) (Kept b.0)) rest) ≡ so_far self.new (rest (Kept t.0))) }
    {
        match op {
            AluOp::Add => self.keep(cut(width, IrOp::Add, a, b)),
            AluOp::Or => self.keep(operation(IrOp::Or, a, b)),
            AluOp::Adc => self.keep(cut(
                width,
                IrOp::Add,
                operation(IrOp::Add, a, b),
                FlagNow(CARRY),
            )),
            AluOp::Sbb => self.keep(cut(
                width,
                IrOp::Sub,
                operation(IrOp::Sub, a, b),
                FlagNow(CARRY),
            )),
            AluOp::And => self.keep(operation(IrOp::And, a, b)),
            AluOp::Sub | AluOp::Cmp => self.keep(cut(width, IrOp::Sub, a, b)),
            AluOp::Xor => self.keep(operation(IrOp::Xor, a, b)),
        }
    }

    /// The flags of an operation on two values, from its result.
    pub fn set_flags_of(
        &mut self,
        op: AluOp,
        width: Width,
        a: Temp,
        b: Temp,
        value: Temp,
    ) -> Result<(), NoMemory>
        ensures { OnOk result ((at after : ℕ) (rest : Lifting) → so_far self.old (flags_of at after op width (Kept a.0) (Kept b.0) (Kept value.0) rest) ≡ so_far self.new rest) }
    {
        let sum = SumOverflow {
            width,
            first: a,
            second: b,
            sum: value,
        };
        let difference = DifferenceOverflow {
            width,
            first: a,
            second: b,
            difference: value,
        };
        match op {
            AluOp::Add => self.set_flags(width, sum, operation(IrOp::LessU, value, a), value),
            AluOp::Adc => self.set_flags(
                width,
                sum,
                or_carried(value, a, operation(IrOp::LessU, value, a)),
                value,
            ),
            AluOp::Sbb => self.set_flags(
                width,
                difference,
                or_carried(a, b, operation(IrOp::LessU, a, b)),
                value,
            ),
            AluOp::Sub | AluOp::Cmp => self.set_flags(
                width,
                difference,
                operation(IrOp::LessU, a, b),
                value,
            ),
            AluOp::Or | AluOp::And | AluOp::Xor => self.set_flags(
                width,
                Constant(0),
                Constant(0),
                value,
            ),
        }
    }

    /// Two operands are compared, which leaves flags alone.
    pub fn compare(
        &mut self,
        site: Site,
        op: AluOp,
        width: Width,
        to: &Operand,
        from: &Operand,
    ) -> Result<(), NoMemory>
        ensures { OnOk result (so_far self.old (compares site.at site.after op width to.now from.now) ≡ so_far self.new done) }
    {
        let a = self.fetch(site, width, to)?;
        let b = self.fetch(site, width, from)?;
        let value = self.keep_result(op, width, a, b)?;
        self.set_flags_of(op, width, a, b, value)?;
        Ok(())
    }

    /// The first operand becomes the result of an operation on both.
    pub fn combine(
        &mut self,
        site: Site,
        op: AluOp,
        width: Width,
        to: &Operand,
        from: &Operand,
    ) -> Result<(), NoMemory>
        ensures { OnOk result (so_far self.old (combines site.at site.after op width to.now from.now) ≡ so_far self.new done) }
    {
        let b = self.fetch(site, width, from)?;
        let change = self.begin_change(site, width, to)?;
        let value = self.keep_result(op, width, change.value, b)?;
        self.write_there(site, width, change.there, value)?;
        self.set_flags_of(op, width, change.value, b, value)?;
        self.put_there(width, change.there, value)?;
        Ok(())
    }

    /// One of the eight operations.
    pub fn lift_alu(
        &mut self,
        site: Site,
        op: AluOp,
        width: Width,
        to: &Operand,
        from: &Operand,
    ) -> Result<(), NoMemory>
        ensures { OnOk result (so_far self.old (lifts_alu site.at site.after op width to.now from.now) ≡ so_far self.new done) }
    {
        match op {
            AluOp::Cmp => self.compare(site, op, width, to, from),
            AluOp::Add
            | AluOp::Or
            | AluOp::Adc
            | AluOp::Sbb
            | AluOp::And
            | AluOp::Sub
            | AluOp::Xor => self.combine(site, op, width, to, from),
        }
    }

    /// Two registers get each the value of the other.
    pub fn exchange(
        &mut self,
        site: Site,
        width: Width,
        to: &Operand,
        from: &Operand,
    ) -> Result<(), NoMemory>
        ensures { OnOk result (so_far self.old (exchanges site.at site.after width to.now from.now) ≡ so_far self.new done) }
    {
        let a = self.fetch(site, width, to)?;
        let b = self.fetch(site, width, from)?;
        self.put_operand(width, from, a)?;
        self.put_operand(width, to, b)?;
        Ok(())
    }

    /// A register gets the sum of two, and the other what the first was.
    pub fn add_exchanged(
        &mut self,
        site: Site,
        width: Width,
        to: &Operand,
        from: &Operand,
    ) -> Result<(), NoMemory>
        ensures { OnOk result (so_far self.old (adds_exchanged site.at site.after width to.now from.now) ≡ so_far self.new done) }
    {
        let a = self.fetch(site, width, to)?;
        let b = self.fetch(site, width, from)?;
        let sum = self.keep_result(AluOp::Add, width, a, b)?;
        self.set_flags_of(AluOp::Add, width, a, b, sum)?;
        self.put_operand(width, from, a)?;
        self.put_operand(width, to, sum)?;
        Ok(())
    }
}

/// Whether two values are the same and CF is set, or else another condition.
fn or_carried(
    first: Temp,
    second: Temp,
    or: Operate<Temp, Temp>,
) -> Operate<Operate<Operate<Temp, Temp>, FlagNow>, Operate<Temp, Temp>>
    ensures { result ≡ record { op = IrOp.Or; first = record { op = IrOp.And; first = record { op = IrOp.Eq; first = first; second = second }; second = record { 0 = 0 } }; second = or } }
{
    let carried = operation(
        IrOp::And,
        operation(IrOp::Eq, first, second),
        FlagNow(CARRY),
    );
    operation(IrOp::Or, carried, or)
}
