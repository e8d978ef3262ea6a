ghost use Rattle.s7_cli.specs.Upgrades.{UpgradesKeepSources, UpgradesLiveAlike, UpgradesLoadAlike, UpgradesRunAlike};

/// A law: an image as `upgrade` writes it is loaded as the same program with the same profile as
/// the image that it was made of. So every replay of the one is that of the other: `run` and `live`
/// answer the same with both; and it keeps each source that the other keeps.
pub fn law_of_upgrades()
    ensures loads { UpgradesLoadAlike }
    ensures runs { UpgradesRunAlike }
    ensures lives { UpgradesLiveAlike }
    ensures keeps { UpgradesKeepSources }
{
    image_file::laws::gives_exactly_images();
    image_file::laws::one_program();
}
