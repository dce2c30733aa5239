/// An activation of a function: the function's number, the place in its code, where its registers begin among those of
/// its task, and the number of the chain of sites of its call.
#[derive(Clone, Copy)]
pub struct Activation {
    pub func: u32,
    pub place: usize,
    pub base: usize,
    pub chain: u32,
}
