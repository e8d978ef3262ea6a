/// A condition of the status word that a bit logic instruction reads in place of an operand:
/// `BR`, `OV`, `OS`, `==0`, `<>0`, `>0`, `<0`, `>=0`, `<=0` and `UO` (unordered).
#[derive(Clone, Copy, Debug, PartialEq, Eq)]
pub enum Flag {
    Br,
    Ov,
    Os,
    EqZero,
    NeZero,
    GtZero,
    LtZero,
    GeZero,
    LeZero,
    Uo,
}
