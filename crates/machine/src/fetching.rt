//! The statement at an offset.
use flat_code::Op;
use image_file::LoadedCode;
use std::marker::Model;

/// A statement that was found: the code in which it stands and its offset there, the data block
/// that it opens first, its last op, and the offset behind it. The ops before its last one are read
/// again where they are wanted. A contract sees its instruction, with all that these ops prepare.
#[derive(Drop)]
pub(crate) struct Fetched<'a> {
    pub(crate) code: &'a LoadedCode<'a>,
    pub(crate) at: u32,
    pub(crate) opens: Option<u16>,
    pub(crate) last: &'a Op,
    pub(crate) next: u32,
}

impl<'a> Model for Fetched<'a> {
    ghost use Rattle.machine.specs.Code.{Fetched as FetchedData};
    ghost use Rattle.machine.specs.Walking.{statement_of_walk};

    ghost Value = { FetchedData };

    ghost view = { λ f. statement_of_walk f.code.now f.at
        (record { opens = f.opens; last = f.last.now; next = f.next }) };
}
