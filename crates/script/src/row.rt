// A row of a read script: a token with the role that it has there. A read script is the list of its
// rows, one for each token, in the order of the text. The value is that of a number or, once names
// are numbered, the number of a name.

#[derive(Clone, Copy, PartialEq, Eq, Debug, Default)]
pub enum Role {
    // declarations: `cell NAME = [-] NUMBER ;`, `var NAME ;`, `fresh NAME ;`
    CellWord,
    CellName,
    CellIs,
    CellMinus,
    CellNumber,
    CellEnd,
    VarWord,
    VarName,
    VarEnd,
    FreshWord,
    FreshName,
    FreshEnd,
    // main and its block
    #[default]
    MainWord,
    MainOpen,
    MainClose,
    // an assignment or a reading: `TARGET = EXPR ;`, `TARGET = in CHANNEL ;`
    Target,
    Becomes,
    SetEnd,
    InWord,
    Channel,
    ReadEnd,
    // an if: its first block closes as `ThenClose` where an else follows, else as `WhenClose`
    IfWord,
    ThenOpen,
    WhenClose,
    ThenClose,
    ElseWord,
    ElseOpen,
    ElseClose,
    // a repeat, a region, a together
    RepeatWord,
    Count,
    BodyOpen,
    BodyClose,
    AtomicWord,
    RegionOpen,
    RegionClose,
    TogetherWord,
    Listed,
    Comma,
    TogetherEnd,
    // the parts of an expression
    Operand,
    Literal,
    Negate,
    Negated,
    ParenOpen,
    ParenClose,
    Times,
    Over,
    Plus,
    Minus,
    Less,
    Same,
}

// The value stands beside the role, since 11 of the 51 roles have one: in the role, each of them would be
// matched where now one field is read.
#[derive(Clone, Copy, PartialEq, Eq, Debug, Default)]
pub struct Row {
    pub role: Role,
    pub place: usize,
    pub len: usize,
    pub value: u32,
}
