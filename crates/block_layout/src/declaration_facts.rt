ghost use Rattle.std.specs.Prelude.{◌≡◌, ◌<◌, List, length, get_or, IfOk, not, ◌&&◌};
ghost use Rattle.stl_ast.specs.Outline.{IsOutline};
ghost use Rattle.stl_ast.specs.declared.declarations.Declaration.{Declaration};
ghost use Rattle.plc_base.specs.Folding.{upper_case_name};
ghost use Rattle.block_layout.specs.Around.{Outside};
ghost use Rattle.block_layout.specs.declared.declaration_facts.OpenList.{OpenList};
ghost use Rattle.block_layout.specs.DeclarationFacts.{AreOpen, AreFactsOnto, open_lists_behind, facts_by_list};

use crate::declarations::{breaks_alone, deep, own_depth, uses_oversized};
use crate::types::Types;
use std::alloc::{AllocError, Global};
use stl_ast::Declaration;
use stl_symbols::NameIndex;

/// A list of declarations that is open: the names in it so far, how many structures and arrays are
/// open around it, at most 9, and whether the declarations around it break no rule.
#[derive(Drop)]
pub(crate) struct OpenList {
    pub(crate) names: NameIndex,
    pub(crate) depth: u8,
    pub(crate) sound: bool,
}

/// What is found of a declaration: its name stands before it, it opens the ninth structure or
/// array, it breaks a rule of declarations, it is sound, and how many structures and arrays are
/// open inside it, at most 9.
#[derive(Clone, Copy, Debug, PartialEq, Eq)]
pub(crate) struct DeclarationFacts {
    pub(crate) twice: bool,
    pub(crate) deep: bool,
    pub(crate) breaks: bool,
    pub(crate) sound: bool,
    pub(crate) reach: u8,
}

/// What a declaration is by the list that it goes on; `name` is its name in upper case.
#[tactic(auto, unfolding(crate::specs::DeclarationFacts::facts_by_list))]
fn facts_by_list(
    types: &Types,
    list: &OpenList,
    name: &[u8],
    declaration: &Declaration,
) -> DeclarationFacts
    requires { name.now ≡ upper_case_name declaration.now.name }
    ensures { result ≡ facts_by_list types.now list.now declaration.now }
{
    let around = list.depth as u64;
    let own = own_depth(types, declaration);
    let twice = list.names.place(name).is_some();
    let opens_ninth = around <= 8 && around + own > 8;
    let breaks = twice || breaks_alone(types, declaration) || opens_ninth;
    DeclarationFacts {
        twice,
        deep: opens_ninth,
        breaks,
        sound: !breaks && !uses_oversized(types, &declaration.of.of) && list.sound,
        reach: deep(around + own) as u8,
    }
}

/// Whether the declarations around those inside a declaration break no rule.
fn stays_sound(facts: DeclarationFacts, list: &OpenList) -> bool
    ensures { result ≡ not facts.breaks && list.now.sound }
{
    !facts.breaks && list.sound
}

/// Enters a declaration into the list that it goes on, and opens the list inside it.
#[tactic(auto, unfolding(crate::specs::DeclarationFacts::facts_by_list, crate::specs::DeclarationFacts::open_lists_behind))]
fn enter(
    alloc: Global,
    types: &Types,
    open_: &mut Vec<OpenList>,
    declaration: &Declaration,
) -> Result<DeclarationFacts, AllocError>
    requires { declaration.now.level < length open_.old.items }
    ensures facts { IfOk result (λ v. (f : OpenList)
        → v ≡ facts_by_list types.now (get_or open_.old.items declaration.now.level f)
        declaration.now) }
    ensures lists { IfOk result (λ _. (f : OpenList) → open_.new.items
        ≡ open_lists_behind types.now open_.old.items
        (get_or open_.old.items declaration.now.level f) declaration.now) }
{
    let name = declaration.name.as_bytes().to_ascii_uppercase(alloc)?;
    let level = declaration.level as usize;
    open_.truncate(level + 1);
    let mut list = open_.remove(level);
    let facts = facts_by_list(types, &list, &name, declaration);
    let sound = stays_sound(facts, &list);
    list.names.add(alloc, &name)?;
    open_.push(list)?;
    open_.push(OpenList {
        names: NameIndex::new(alloc),
        depth: facts.reach,
        sound,
    })?;
    Ok(facts)
}

/// The facts of declarations that stand one behind the other, by the lists that are open.
pub(crate) fn check_all(
    alloc: Global,
    types: &Types,
    open_: &mut Vec<OpenList>,
    declarations: &[Declaration],
) -> Result<Vec<DeclarationFacts>, AllocError>
    requires outline { IsOutline 0 declarations.now }
    requires open { 0 < length open_.old.items }
    ensures open { IfOk result (λ _. 0 < length open_.new.items) }
    ensures count { IfOk result (λ v. length v.items ≡ length declarations.now) }
    ensures facts { IfOk result (λ v. (o : Outside) (before : List Declaration)
        → AreOpen types.now o before open_.old.items
        → AreFactsOnto types.now o before declarations.now v.items open_.new.items) }
{
    let mut all_facts = Vec::with_capacity(alloc, declarations.len())?;
    for declaration in declarations {
        let facts = enter(alloc, types, open_, declaration)?;
        all_facts.push(facts)?;
    }
    Ok(all_facts)
}
