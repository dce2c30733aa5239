ghost use Rattle.std.specs.Prelude.{◌≡◌, ℕ, ◌^◌, ◌<◌, true, List, Ok, Err};
ghost use Rattle.hw_base.specs.declared.accesses.Kind.{Kind};
ghost use Rattle.ir_core.specs.declared.ir_module.Function.{Function};
ghost use Rattle.ir_core.specs.declared.ir_module.Inst.{Inst};
ghost use Rattle.ir_core.specs.declared.operands.Placed.{Placed};
ghost use Rattle.ir_core.specs.declared.operations.Op.TheVariants.{CmpXchg, Load, Rmw, Store};
ghost use Rattle.hw_base.specs.declared.operators.RmwOp.{RmwOp};
ghost use Rattle.hw_base.specs.declared.pointers.Base.{Base};
ghost use Rattle.hw_shadow.specs.declared.mismatch.Mismatch.{Mismatch};
ghost use Rattle.ir_lib.specs.Strings.{checked_string};
ghost use Rattle.ir_meaning.specs.AccessRule.{Violates};
ghost use Rattle.ir_meaning.specs.Strings.{Refused, Whole, string_at};
ghost use Rattle.ir_machine.specs.State.{MachineSeen, MachineSetting};
ghost use Rattle.step_simulation.specs.RegisterSteps.{IsAt, IsFollowed, is_register_step};
ghost use Rattle.simulation.specs.Relation.{IsSetting, SeenRelated, story_setting};
ghost use Rattle.tag_story.specs.Judging.{access_judged, refusing_by};
ghost use Rattle.tag_story.specs.Story.{number_of};
ghost use Rattle.tag_story.specs.ToldRun.{ToldSeen};
ghost use Rattle.tag_story.specs.declared.judgement.Judgement.TheVariants.{Refused as IsRefused};
ghost use Rattle.tag_story.specs.declared.judgement.Refusing.{Refusing};

/// In related states the machine follows each source step that reads and writes registers alone: it gives the image of the same
/// result, goes along the same edge, or traps at the same site, and the states stay related. Of a step that is stuck
/// or leaves the profile nothing is said. The function does nothing when it runs.
pub fn register_steps_are_followed()
    ensures { (setting : MachineSetting) (t : ToldSeen) (m : MachineSeen) (f : Function) (inst : Inst)
        → IsSetting setting → IsAt setting.program t f inst → is_register_step inst.op ≡ true
        → SeenRelated setting t m → IsFollowed setting t m }
{}

/// In related states the machine follows each load, of an integer or a pointer, with the check before it: if the access rule finds
/// the load fine, nothing is reported, and the register gets the image of the same value; at a violation the machine reports
/// it, with its pointer, task, step and chain, if the tag rule refuses it. Of a load outside the profile nothing is said, nor of
/// what follows a violation that passes. The function does nothing when it runs.
pub fn loads_are_followed()
    ensures { (setting : MachineSetting) (t : ToldSeen) (m : MachineSeen) (f : Function) (inst : Inst) (ty align : ℕ) (at : Placed)
        → IsSetting setting → IsAt setting.program t f inst → inst.op ≡ Load ty at align
        → SeenRelated setting t m → IsFollowed setting t m }
{}

/// In related states the machine follows each store, of an integer or a pointer, with the check before it: a fine one writes the
/// images of the same bytes, one to a constant traps, and a violation is reported if the tag rule refuses it. The function does
/// nothing when it runs.
pub fn stores_are_followed()
    ensures { (setting : MachineSetting) (t : ToldSeen) (m : MachineSeen) (f : Function) (inst : Inst) (value at : Placed) (align : ℕ)
        → IsSetting setting → IsAt setting.program t f inst → inst.op ≡ Store value at align
        → SeenRelated setting t m → IsFollowed setting t m }
{}

/// In related states the machine follows each `atomicrmw` and each `cmpxchg`, with the check before it, as it does a load and a
/// store. The function does nothing when it runs.
pub fn atomics_are_followed()
    ensures updates { (setting : MachineSetting) (t : ToldSeen) (m : MachineSeen) (f : Function) (inst : Inst) (kind : RmwOp) (at value : Placed) (align : ℕ)
        → IsSetting setting → IsAt setting.program t f inst → inst.op ≡ Rmw kind at value align
        → SeenRelated setting t m → IsFollowed setting t m }
    ensures exchanges { (setting : MachineSetting) (t : ToldSeen) (m : MachineSeen) (f : Function) (inst : Inst) (at expected new : Placed) (align : ℕ)
        → IsSetting setting → IsAt setting.program t f inst → inst.op ≡ CmpXchg at expected new align
        → SeenRelated setting t m → IsFollowed setting t m }
{}

/// In related states the check of a string finds what the source says of it: the same bytes up to the 0, if each access to them is
/// fine; and if the access to one of them is a violation, and the tag rule refuses it, the check fails at this byte, with what
/// the story says refuses it. The function does nothing when it runs.
pub fn strings_are_found()
    ensures whole { (setting : MachineSetting) (t : ToldSeen) (m : MachineSeen) (base : Base) (off : ℕ) (bytes : List ℕ)
        → IsSetting setting → SeenRelated setting t m → off < 2 ^ 64 → string_at t.shared.source.births base off ≡ Whole bytes
        → checked_string m.shared.memory (number_of t.shared.story.births base off) ≡ Ok bytes }
    ensures refused { (setting : MachineSetting) (t : ToldSeen) (m : MachineSeen) (base : Base) (off at : ℕ) (kind : Kind) (refused : Refusing)
        → IsSetting setting → SeenRelated setting t m → off < 2 ^ 64 → string_at t.shared.source.births base off ≡ Refused at (Violates kind)
        → access_judged (story_setting setting) t.shared.story t.shared.source.births (number_of t.shared.story.births base at) 1 ≡ IsRefused refused
        → (found : Mismatch)
        × (checked_string m.shared.memory (number_of t.shared.story.births base off)
        ≡ Err (record { at = number_of t.shared.story.births base at; found = found }))
        × (refusing_by found ≡ refused) }
{}

/// In related states the machine follows each step of the source: also births and deaths of blocks and of variables, calls and
/// returns of functions, each library function, and starts and ends of tasks. The states are related after each step that
/// goes on, a task that finishes leaves what all tasks share related, and each end of the run is the same end. The function
/// does nothing when it runs.
pub fn steps_are_followed()
    ensures { (setting : MachineSetting) (t : ToldSeen) (m : MachineSeen) → IsSetting setting → SeenRelated setting t m
        → IsFollowed setting t m }
{}
