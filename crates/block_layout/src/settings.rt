ghost use Rattle.std.specs.Prelude.{◌≡◌, IfOk};
ghost use Rattle.plc_base.specs.Least.{broken_if, least};
ghost use Rattle.block_layout.specs.SettingFaults.{rule_of_setting_fault, setting_breaks};
ghost use Rattle.block_layout.specs.Paths.{folded_path};
ghost use Rattle.block_layout.specs.Settings.{in_settings, on_settings};

use crate::beyond::leaves_structure;
use crate::blocks::BlockLayout;
use crate::paths::Path;
use crate::routes::{setting_structure, walk_setting};
use crate::rules::rule_41::misfits;
use plc_base::{Refusal, broken_if, lesser, try_least_of};
use std::alloc::{AllocError, Global};
use stl_ast::{Block, Setting};

/// What a setting can break: its value doesn't fit, or an index is outside its array.
#[derive(Clone, Copy, Debug, PartialEq, Eq)]
pub(crate) enum SettingFault {
    UnfitValue,
    OutsideIndex,
}

fn breaks(
    layouts: &[BlockLayout],
    which: SettingFault,
    block: usize,
    setting: &Setting,
    path: &Path,
) -> bool
    requires { path.now ≡ folded_path setting.now.path }
    ensures { result ≡ setting_breaks layouts.now which block setting.now }
{
    match which {
        SettingFault::UnfitValue => {
            let target = walk_setting(layouts, block, path.steps());
            misfits(layouts, &setting.value, target)
        }
        SettingFault::OutsideIndex => {
            leaves_structure(layouts, setting_structure(layouts, block), path.steps())
        }
    }
}

fn rule_of(which: SettingFault) -> u16
    ensures { result ≡ rule_of_setting_fault which }
{
    match which {
        SettingFault::UnfitValue => 41,
        SettingFault::OutsideIndex => 42,
    }
}

fn refusal_of_setting(
    alloc: Global,
    layouts: &[BlockLayout],
    which: SettingFault,
    block: usize,
    setting: &Setting,
) -> Result<Option<Refusal>, AllocError>
    ensures { IfOk result (λ r. r
        ≡ least (broken_if (setting_breaks layouts.now which block setting.now)
        setting.now.line (rule_of_setting_fault which))) }
{
    let path = Path::new(alloc, setting.path.as_slice())?;
    let breaks = breaks(layouts, which, block, setting, &path);
    Ok(broken_if(breaks, setting.line, rule_of(which)))
}

fn least_in_settings(
    alloc: Global,
    layouts: &[BlockLayout],
    which: SettingFault,
    block: usize,
    settings: &[Setting],
) -> Result<Option<Refusal>, AllocError>
    ensures { IfOk result (λ r. r
        ≡ least (in_settings (setting_breaks layouts.now which block)
        (rule_of_setting_fault which) settings.now)) }
{
    try_least_of(settings, |setting: &Setting| {
        refusal_of_setting(alloc, layouts, which, block, setting)
    })
}

/// The least refusal of settings by what they break.
pub(crate) fn least_of_settings(
    alloc: Global,
    layouts: &[BlockLayout],
    which: SettingFault,
    blocks: &[Block],
) -> Result<Option<Refusal>, AllocError>
    ensures { IfOk result (λ r. r
        ≡ least
        (on_settings (setting_breaks layouts.now which)
        (rule_of_setting_fault which) 0 blocks.now)) }
{
    let mut found = None;
    for i in 0..blocks.len() {
        let settings = blocks[i].settings.as_slice();
        let one = least_in_settings(alloc, layouts, which, i, settings)?;
        found = lesser(found, one);
    }
    Ok(found)
}
