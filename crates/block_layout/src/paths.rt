ghost use Rattle.std.specs.Prelude.{◌≡◌, ◌∷◌, ◌++◌, IfOk};
ghost use Rattle.block_layout.specs.Paths.{folded_path, folded_step};
ghost use Rattle.stl_ast.specs.declared.blocks.PathStep.{PathStep};
ghost use Rattle.stl_ast.specs.declared.blocks.PathStep.TheVariants.{Named};
ghost use Rattle.plc_base.specs.Folding.{upper_case_name};

use std::alloc::{AllocError, Global};
use std::marker::Model;
use stl_ast::{Name, PathStep};

/// A path as it is followed: its names are in upper case. Contracts see its steps.
#[derive(Drop)]
pub struct Path {
    steps: Vec<PathStep>,
}

impl Model for Path {
    ghost use Rattle.std.specs.Prelude.{List};
    ghost use Rattle.stl_ast.specs.declared.blocks.PathStep.{PathStep};

    ghost Value = { List PathStep };

    ghost view = { λ p. p.steps.items };
}

fn named_step(alloc: Global, name: &Name) -> Result<PathStep, AllocError>
    ensures { IfOk result (λ s. s ≡ Named (upper_case_name name.now)) }
{
    let upper = name.as_bytes().to_ascii_uppercase(alloc)?;
    Ok(PathStep::Named {
        name: Name::from_vec(upper),
    })
}

fn folded_step(alloc: Global, step: &PathStep) -> Result<PathStep, AllocError>
    ensures { IfOk result (λ s. s ≡ folded_step step.now) }
{
    match step {
        PathStep::Named { name } => named_step(alloc, name),
        PathStep::Index { at } => Ok(PathStep::Index { at: *at }),
    }
}

/// Adds the steps of a path of the source.
fn add_steps(alloc: Global, path: &[PathStep], steps: &mut Vec<PathStep>) -> Result<(), AllocError>
    ensures { IfOk result (λ _. steps.new.items ≡ steps.old.items ++ folded_path path.now) }
{
    for step in path {
        steps.push(folded_step(alloc, step)?)?;
    }
    Ok(())
}

impl Path {
    /// The path of these steps of the source.
    pub fn new(alloc: Global, path: &[PathStep]) -> Result<Self, AllocError>
        ensures { IfOk result (λ p. p ≡ folded_path path.now) }
    {
        let mut steps = Vec::with_capacity(alloc, path.len())?;
        add_steps(alloc, path, &mut steps)?;
        Ok(Path { steps })
    }

    /// The path that begins with a name.
    pub fn behind(alloc: Global, name: &Name, path: &[PathStep]) -> Result<Self, AllocError>
        ensures { IfOk result (λ p. p ≡ folded_path (Named name.now ∷ path.now)) }
    {
        let mut steps = Vec::new(alloc);
        steps.push(named_step(alloc, name)?)?;
        add_steps(alloc, path, &mut steps)?;
        Ok(Path { steps })
    }

    /// The steps.
    pub fn steps(&self) -> &[PathStep]
        ensures { result.now ≡ self.now }
    {
        self.steps.as_slice()
    }
}
