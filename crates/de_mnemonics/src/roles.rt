/// The role of a word in a source.
#[derive(Clone, Copy, Debug, PartialEq, Eq)]
pub enum Role {
    /// The instruction word of a statement.
    Instruction,
    /// A word in an operand place.
    Operand,
    /// A name at the front of a path.
    Path,
    /// A word, or another token, that is the same in both languages.
    Stays,
}
