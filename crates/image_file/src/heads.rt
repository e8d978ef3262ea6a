use arrayvec::ArrayVec;
use flat_code::Param;
use std::marker::Model;

/// What the head of a code block says: how many bytes its local data and an instance have, how many
/// statements it has, how many bytes its code takes, and its parameters.
#[derive(Drop)]
pub struct CodeBlockHead {
    pub local_len: u16,
    pub instance_len: u16,
    pub statements: u16,
    pub code_len: u32,
    pub params: ArrayVec<Param, 60>,
}

impl Model for CodeBlockHead {
    ghost use Rattle.image_file.specs.Readers.{HeadData};

    ghost Value = { HeadData };

    ghost view = { λ h. record {
      local_len = h.local_len;
      instance_len = h.instance_len;
      statements = h.statements;
      code_len = h.code_len;
      params = h.params.items;
    } };
}
