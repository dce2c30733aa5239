ghost use Rattle.std.specs.Prelude.{◌≡◌, ℕ, ◌+◌, ◌-◌, ◌^◌, ◌<◌, length};
ghost use Rattle.hw_base.specs.declared.endings.Input.{Input};
ghost use Rattle.ir_machine.specs.Built.{IsBuiltOp, IsOrdinary, IsPlainOp, HasCode};
ghost use Rattle.ir_machine.specs.InstructionStep.{operation_step};
ghost use Rattle.ir_machine.specs.RunStates.{IsOutcome, IsPlainOutcome};
ghost use Rattle.ir_machine.specs.State.{MachineSetting, MachineSeen, MachineOutcome};

use crate::progress::Progress;
use crate::run::Run;
use hw_base::Site;
use mi_code::{Code, MiOp};

/// The step of an instruction at a site, which is no check, no call of a function and no end of a frame with variables.
#[tactic(auto, using(crate::proofs::Outcomes::from_plain))]
pub fn operation(
    code: &Code,
    run: &mut Run,
    numbers: &mut Vec<u128>,
    site: Site,
    op: &MiOp,
) -> Progress
    requires built { IsBuiltOp op.now }
    requires ordinary { IsOrdinary op.now }
    requires task { run.old.seen.task ≡ 0 }
    requires place { run.old.seen.frame.place + 1 < 2 ^ 64 }
    requires chains { length run.old.seen.shared.chains < 2 ^ 32 - 1 }
    ensures step { (setting : MachineSetting) (given : Input) (next : MachineSeen → MachineOutcome) → HasCode setting code.now
        → IsOutcome (operation_step setting given site next run.old.seen op.now) result run.new }
    ensures plain { (setting : MachineSetting) (given : Input) (next : MachineSeen → MachineOutcome) → IsPlainOp op.now
        → IsPlainOutcome (operation_step setting given site next run.old.seen op.now) result run.new }
{
    match op {
        MiOp::Binary {
            op,
            width,
            to,
            a,
            b,
        } => run.binary(site, *op, *width, *to, a, b),
        MiOp::Icmp {
            pred,
            width,
            to,
            a,
            b,
        } => run.icmp(*pred, *width, *to, a, b),
        MiOp::Cast {
            op,
            from,
            width,
            to,
            a,
        } => run.cast(*op, *from, *width, *to, a),
        MiOp::Bits {
            op,
            width,
            to,
            args,
        } => run.bits(*op, *width, *to, args),
        MiOp::Overflow {
            op,
            width,
            to,
            a,
            b,
        } => run.overflow(*op, *width, *to, a, b),
        MiOp::Select { to, cond, a, b } => run.select(*to, cond, a, b),
        MiOp::Freeze { to, a } => run.freeze(*to, a),
        MiOp::Alloca { to, variable } => run.alloca(*to, *variable),
        MiOp::Gep { to, base, indices } => run.gep(*to, base, indices),
        MiOp::Load { width, to, at } => run.load(site, *width, *to, at),
        MiOp::Store { width, value, at } => run.store(site, *width, value, at),
        MiOp::Part { to, of, part } => run.extract(*to, of, *part),
        MiOp::Nop => run.go_on(),
        MiOp::Jump { edge } => run.jump(edge, numbers),
        MiOp::Branch { cond, yes, no } => run.branch(cond, yes, no, numbers),
        MiOp::Switch {
            width,
            on,
            other,
            cases,
        } => run.switch(*width, on, other, cases, numbers),
        MiOp::Ret { value } => run.ret(code, value),
        MiOp::Unreachable => run.unreachable(site),
        _ => unreachable!(),
    }
}
