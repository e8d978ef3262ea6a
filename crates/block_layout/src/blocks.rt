use crate::layouts::Layout;
use plc_base::BlockId;

/// Where the structure of a block stands: in the block itself, or in the function block or `TYPE`
/// block at this place in the source, or in one that the source hasn't.
#[derive(Clone, Copy, Debug, PartialEq, Eq)]
pub enum Shape {
    Own,
    Of { block: usize },
    Unknown,
}

/// The layout of a block. `broken` says that the block as a whole breaks a rule; `components` are
/// those of its structure, or the parameters and static variables of a code block, `temps` its
/// temporary variables. `local_len` is the length of its local data and `length` that of its
/// structure, both in bytes.
#[derive(Drop)]
pub struct BlockLayout {
    pub id: Option<BlockId>,
    pub broken: bool,
    pub shape: Shape,
    pub components: Layout,
    pub temps: Layout,
    pub local_len: u64,
    pub length: u64,
}

/// Which variables of a block a path names: those of a data block, those of a function block in its
/// instance, or its temporary ones.
#[derive(Clone, Copy, Debug, PartialEq, Eq)]
pub enum Section {
    Global,
    Instance,
    Temp,
}
