use mi_code::MiOp;

/// What is added before an instruction: two instructions at most.
#[derive(Drop)]
pub enum Addition {
    Nothing,
    One(MiOp),
    Two(MiOp, MiOp),
}
