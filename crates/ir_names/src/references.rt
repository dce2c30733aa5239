use crate::fault::NameFault;

/// What names stand for in a text.
#[derive(Drop)]
pub struct References {
    /// One number a spelled type: of the type that stands for it. For a name this is the type in the definition of the name;
    /// any other type stands for itself.
    pub leads: Vec<usize>,
    /// One a spelled constant: for a global variable's name the number of the variable, counted from 0 among the global
    /// variables in order of the text; none for any other constant.
    pub variables: Vec<Option<u32>>,
}

/// What names stand for in a text, and the first fault of a name outside the bodies of its functions.
#[derive(Drop)]
pub struct Resolution {
    pub references: References,
    pub fault: Option<NameFault>,
}
