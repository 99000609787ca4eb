use x64_syntax::{AluOp, Cond, Instr, ShiftOp, Width};

/// The manual's mnemonic of an instruction, in lower case.
pub fn mnemonic(instr: &Instr) -> &'static str {
    match instr {
        Instr::Alu(op, _, _, _, _) => operation(*op),
        Instr::Test(_, _, _) => "test",
        Instr::Xchg(_, _, _, _) => "xchg",
        Instr::Mov(_, _, _) => "mov",
        Instr::Lea(_, _, _) => "lea",
        Instr::MovZx(_, _, _, _) => "movzx",
        Instr::MovSx(_, _, _, _) => "movsx",
        Instr::MovSxd(_, _) => "movsxd",
        Instr::Push(_) => "push",
        Instr::Pop(_) => "pop",
        Instr::Leave => "leave",
        Instr::Ret => "ret",
        Instr::Call(_) | Instr::CallInd(_) => "call",
        Instr::Jmp(_) | Instr::JmpInd(_) => "jmp",
        Instr::Jcc(condition, _) => jump(*condition),
        Instr::SetCc(condition, _) => set(*condition),
        Instr::CmovCc(condition, _, _, _) => conditional_move(*condition),
        Instr::Inc(_, _, _) => "inc",
        Instr::Dec(_, _, _) => "dec",
        Instr::Not(_, _, _) => "not",
        Instr::Neg(_, _) => "neg",
        Instr::Mul(_, _) => "mul",
        Instr::ImulOne(_, _) | Instr::ImulTwo(_, _, _) | Instr::ImulThree(_, _, _, _) => "imul",
        Instr::Div(_, _) => "div",
        Instr::Idiv(_, _) => "idiv",
        Instr::Shift(op, _, _, _) => shift(*op),
        Instr::Widen(width) => widening(*width),
        Instr::SignFill(width) => sign_filling(*width),
        Instr::Cmpxchg(_, _, _, _) => "cmpxchg",
        Instr::Xadd(_, _, _, _) => "xadd",
        Instr::Nop => "nop",
        Instr::Pause => "pause",
        Instr::Endbr => "endbr64",
        Instr::Mfence => "mfence",
        Instr::Ud2 => "ud2",
    }
}

fn operation(op: AluOp) -> &'static str {
    match op {
        AluOp::Add => "add",
        AluOp::Or => "or",
        AluOp::Adc => "adc",
        AluOp::Sbb => "sbb",
        AluOp::And => "and",
        AluOp::Sub => "sub",
        AluOp::Xor => "xor",
        AluOp::Cmp => "cmp",
    }
}

fn shift(op: ShiftOp) -> &'static str {
    match op {
        ShiftOp::Rol => "rol",
        ShiftOp::Ror => "ror",
        ShiftOp::Shl => "shl",
        ShiftOp::Shr => "shr",
        ShiftOp::Sar => "sar",
    }
}

fn widening(width: Width) -> &'static str {
    match width {
        Width::Byte | Width::Word => "cbw",
        Width::Long => "cwde",
        Width::Quad => "cdqe",
    }
}

fn sign_filling(width: Width) -> &'static str {
    match width {
        Width::Byte | Width::Word => "cwd",
        Width::Long => "cdq",
        Width::Quad => "cqo",
    }
}

fn jump(condition: Cond) -> &'static str {
    match condition.code {
        0 => "jo",
        1 => "jno",
        2 => "jb",
        3 => "jae",
        4 => "je",
        5 => "jne",
        6 => "jbe",
        7 => "ja",
        8 => "js",
        9 => "jns",
        12 => "jl",
        13 => "jge",
        14 => "jle",
        _ => "jg",
    }
}

fn set(condition: Cond) -> &'static str {
    match condition.code {
        0 => "seto",
        1 => "setno",
        2 => "setb",
        3 => "setae",
        4 => "sete",
        5 => "setne",
        6 => "setbe",
        7 => "seta",
        8 => "sets",
        9 => "setns",
        12 => "setl",
        13 => "setge",
        14 => "setle",
        _ => "setg",
    }
}

fn conditional_move(condition: Cond) -> &'static str {
    match condition.code {
        0 => "cmovo",
        1 => "cmovno",
        2 => "cmovb",
        3 => "cmovae",
        4 => "cmove",
        5 => "cmovne",
        6 => "cmovbe",
        7 => "cmova",
        8 => "cmovs",
        9 => "cmovns",
        12 => "cmovl",
        13 => "cmovge",
        14 => "cmovle",
        _ => "cmovg",
    }
}
