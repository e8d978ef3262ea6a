ghost use Rattle.std.specs.Prelude.{◌≡◌, IfOk};
ghost use Rattle.std.specs.Str.{bytes_eq};
ghost use Rattle.plc_base.specs.Kinds.{is_system_function};
ghost use Rattle.stl_symbols.specs.Symbol.{symbol_named};
ghost use Rattle.block_layout.specs.Blocks.{named_block};
ghost use Rattle.stl_types.specs.Addresses.{resolved_address, address_in_block, area_of_pointer, area_for_letters, side_of};
ghost use Rattle.stl_types.specs.Context.{data_number};
ghost use Rattle.stl_types.specs.Resolution.{
  instance_number,
  register_for_word,
  resolution_of,
  resolution_of_address,
  resolution_of_call,
  resolution_of_opened_block,
  resolution_of_path,
  resolution_of_symbol,
  resolved_target,
  whole_called_block,
};
ghost use Rattle.stl_types.specs.declared.resolved_operands.Resolution.TheVariants.{Resolved};
ghost use Rattle.stl_types.specs.declared.resolved_operands.ResolvedOperand.TheVariants as resolved;

use crate::contexts::Context;
use crate::resolved_operands::{Register, Resolution, ResolvedOperand, Side};
use block_layout::{Path, named_block};
use plc_base::{Area, BlockId, Place, Width};
use std::alloc::{AllocError, Global};
use stl_ast::{BlockName, Letters, Name, Operand, PathHead, PathStep};
use stl_symbols::Target;

fn area_of(letters: Letters) -> Area
    ensures { result ≡ area_for_letters letters }
{
    match letters {
        Letters::I => Area::I,
        Letters::Q => Area::Q,
        Letters::M => Area::M,
        Letters::Db => Area::Db,
        Letters::Di => Area::Di,
        Letters::L => Area::L,
        Letters::Pi | Letters::Pq => Area::P,
    }
}

fn side_of(letters: Letters) -> Side
    ensures { result ≡ side_of letters }
{
    match letters {
        Letters::Pi => Side::Inputs,
        Letters::Pq => Side::Outputs,
        _ => Side::Both,
    }
}

/// The area of a pointer, where it has one.
fn area_of_pointer(letters: Option<Letters>) -> Option<Area>
    ensures { result ≡ area_of_pointer letters }
{
    match letters {
        None => None,
        Some(letters) => Some(area_of(letters)),
    }
}

/// What an address names; `number` is that of the data block before it, else 0.
fn address(number: u16, letters: Letters, width: Width, byte: u16, bit: u8) -> ResolvedOperand
    ensures { result ≡ resolved_address number letters width byte bit }
{
    ResolvedOperand::Direct {
        place: Place {
            area: area_of(letters),
            number,
            byte,
            bit,
        },
        width,
        side: side_of(letters),
        declared: None,
    }
}

fn address_in(number: Option<u16>, letters: Letters, width: Width, byte: u16, bit: u8) -> Resolution
    ensures { result ≡ address_in_block number letters width byte bit }
{
    match number {
        None => Resolution::Unjudged,
        Some(number) => Resolution::Resolved {
            view: address(number, letters, width, byte, bit),
        },
    }
}

/// What a symbol stands for.
fn resolved_target(target: Target) -> ResolvedOperand
    ensures { result ≡ resolved_target target }
{
    match target {
        Target::Variable { place, width } => ResolvedOperand::Direct {
            place,
            width,
            side: Side::Both,
            declared: None,
        },
        Target::Timer { number } => ResolvedOperand::Timer { number },
        Target::Counter { number } => ResolvedOperand::Counter { number },
        Target::Block { .. } => ResolvedOperand::Block,
    }
}

fn is_word(upper: &[u8], word: &[u8]) -> bool
    ensures { result ≡ bytes_eq upper.now word.now }
{
    upper == word
}

/// A register by its word.
fn register_for_word(alloc: Global, name: &Name) -> Result<Register, AllocError>
    ensures { IfOk result (λ r. r ≡ register_for_word name.now) }
{
    let upper = name.as_bytes().to_ascii_uppercase(alloc)?;
    let upper = upper.as_slice();
    if is_word(upper, b"STW") {
        return Ok(Register::Stw);
    }
    if is_word(upper, b"DBLG") {
        return Ok(Register::Dblg);
    }
    if is_word(upper, b"DBNO") {
        return Ok(Register::Dbno);
    }
    if is_word(upper, b"DILG") {
        return Ok(Register::Dilg);
    }
    if is_word(upper, b"DINO") {
        return Ok(Register::Dino);
    }
    Ok(Register::Ar2)
}

fn resolved_to(view: ResolvedOperand) -> Resolution
    ensures { result ≡ Resolved view }
{
    Resolution::Resolved { view }
}

fn resolution_of_register(alloc: Global, name: &Name) -> Result<Resolution, AllocError>
    ensures { IfOk result (λ s. s ≡ Resolved (resolved.Register (register_for_word name.now))) }
{
    let which = register_for_word(alloc, name)?;
    Ok(resolved_to(ResolvedOperand::Register { which }))
}

/// A data block that is opened, by its number.
fn resolution_of_opened_block(di: bool, number: Option<u16>) -> Resolution
    ensures { result ≡ resolution_of_opened_block di number }
{
    match number {
        None => Resolution::Unjudged,
        Some(number) => Resolution::Resolved {
            view: ResolvedOperand::OpenBlock { di, number },
        },
    }
}

impl<'a> Context<'a> {
    /// A quoted name that is the whole operand.
    fn resolution_of_symbol(&self, name: &Name) -> Resolution
        ensures { result ≡ resolution_of_symbol (symbol_named name.now self.now.symbols) }
    {
        match self.symbols().lookup(name.as_bytes()) {
            None => Resolution::Unknown,
            Some(target) => Resolution::Resolved {
                view: resolved_target(target),
            },
        }
    }

    /// A path: into the block's own variables, into a data block, or a symbol.
    fn resolution_of_path(
        &self,
        alloc: Global,
        head: &PathHead,
        steps: &[PathStep],
    ) -> Result<Resolution, AllocError>
        ensures { IfOk result (λ s. s ≡ resolution_of_path self.now head.now steps.now) }
    {
        match head {
            PathHead::Local { name } => {
                let upper = name.as_bytes().to_ascii_uppercase(alloc)?;
                let path = Path::new(alloc, steps)?;
                Ok(self.own_variable(upper.as_slice(), &path))
            }
            PathHead::InBlock { name } => {
                let path = Path::new(alloc, steps)?;
                Ok(self.data_variable(name, &path))
            }
            PathHead::Symbol { name } => Ok(self.resolution_of_symbol(name)),
        }
    }

    /// An address, also behind a data block.
    fn resolution_of_address(
        &self,
        block: &Option<BlockName>,
        letters: Letters,
        width: Width,
        byte: u16,
        bit: u8,
    ) -> Resolution
        ensures { result ≡ resolution_of_address self.now block.now letters width byte bit }
    {
        match block {
            None => Resolution::Resolved {
                view: address(0, letters, width, byte, bit),
            },
            Some(name) => address_in(self.data_number(name), letters, width, byte, bit),
        }
    }

    /// A called block, where it breaks no rule itself.
    fn whole_called_block(&self, id: Option<BlockId>) -> Option<BlockId>
        ensures { result ≡ whole_called_block self.now id }
    {
        let id = id?;
        if id.kind.is_system_function() {
            return Some(id);
        }
        match self.whole_place(id) {
            None => None,
            Some(_) => Some(id),
        }
    }

    /// A called block, with the number of its instance.
    fn resolution_of_call(&self, id: Option<BlockId>, instance: &Option<BlockName>) -> Resolution
        ensures { result
            ≡ resolution_of_call id instance.now (instance_number self.now instance.now) }
    {
        let Some(block) = id else {
            return Resolution::Unjudged;
        };
        let Some(name) = instance else {
            return Resolution::Resolved {
                view: ResolvedOperand::Called {
                    block,
                    instance: None,
                },
            };
        };
        match self.data_number(name) {
            None => Resolution::Unjudged,
            Some(number) => Resolution::Resolved {
                view: ResolvedOperand::Called {
                    block,
                    instance: Some(number),
                },
            },
        }
    }

    /// What an operand names in the body of this block.
    ///
    /// # Errors
    ///
    /// Want of memory.
    #[tactic(auto, unfolding(crate::specs::Resolution::resolution_of))]
    pub fn resolution(&self, alloc: Global, operand: &Operand) -> Result<Resolution, AllocError>
        ensures { IfOk result (λ s. s ≡ resolution_of self.now operand.now) }
    {
        match operand {
            Operand::Nothing => Ok(resolved_to(ResolvedOperand::Nothing)),
            Operand::Direct {
                block,
                area,
                width,
                byte,
                bit,
            } => Ok(self.resolution_of_address(block, *area, *width, *byte, *bit)),
            Operand::Timer { number } => Ok(resolved_to(ResolvedOperand::Timer {
                number: *number,
            })),
            Operand::Counter { number } => Ok(resolved_to(ResolvedOperand::Counter {
                number: *number,
            })),
            Operand::Named { head, steps } => self.resolution_of_path(
                alloc,
                head,
                steps.as_slice(),
            ),
            Operand::ByMemory {
                area,
                width,
                from,
                byte,
            } => Ok(resolved_to(ResolvedOperand::ByMemory {
                area: area_of(*area),
                width: *width,
                from: area_of(*from),
                byte: *byte,
            })),
            Operand::NumberBy { what, from, byte } => Ok(resolved_to(ResolvedOperand::NumberBy {
                what: *what,
                from: area_of(*from),
                byte: *byte,
            })),
            Operand::ByRegister {
                area,
                width,
                register,
                bits,
            } => Ok(resolved_to(ResolvedOperand::ByRegister {
                area: area_of_pointer(*area),
                width: *width,
                register: *register,
                bits: *bits,
            })),
            Operand::Pointer { area, byte, bit } => Ok(resolved_to(ResolvedOperand::Pointer {
                area: area_of_pointer(*area),
                byte: *byte,
                bit: *bit,
            })),
            Operand::Constant { .. } => Ok(resolved_to(ResolvedOperand::Constant)),
            Operand::Label { .. } => Ok(resolved_to(ResolvedOperand::Label)),
            Operand::OfStatus { flag } => Ok(resolved_to(ResolvedOperand::OfStatus {
                flag: *flag,
            })),
            Operand::Other { name } => resolution_of_register(alloc, name),
            Operand::OpenBlock { di, name } => Ok(resolution_of_opened_block(
                *di,
                self.data_number(name),
            )),
            Operand::Called { name, instance } => {
                let id = self.whole_called_block(named_block(self.symbols(), name));
                Ok(self.resolution_of_call(id, instance))
            }
        }
    }
}
