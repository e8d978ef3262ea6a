ghost use Rattle.std.specs.Prelude.{◌≡◌, ◌≤◌};
ghost use Rattle.flat_code.specs.Stamps.{profile_field_of, profile_number as number_of_profile, profile_of, stamp_of as stamp_of_fields, version_number};

use plc_base::Profile;

/// The version of an image, and the profile that version 2 names.
#[derive(Clone, Copy, Debug, PartialEq, Eq)]
pub enum Stamp {
    /// Version 1, which names no profile.
    One,
    /// Version 2.
    Two(Profile),
}

/// The number of a profile in images: 1 Small, 2 Large.
pub(crate) fn profile_number(profile: Profile) -> u16
    ensures { result ≡ number_of_profile profile }
{
    match profile {
        Profile::Small => 1,
        Profile::Large => 2,
    }
}

impl Stamp {
    /// The version field of the image.
    pub fn version(self) -> u16
        ensures { result ≡ version_number self }
    {
        match self {
            Stamp::One => 1,
            Stamp::Two(_) => 2,
        }
    }

    /// The field behind the version: 0 in version 1, else 1 for Small and 2 for Large.
    pub fn profile_field(self) -> u16
        ensures { result ≡ profile_field_of self }
    {
        match self {
            Stamp::One => 0,
            Stamp::Two(profile) => profile_number(profile),
        }
    }

    /// The stamp of the two fields. An unknown profile of version 2 stands for Small, an unknown
    /// version for 1.
    pub fn of(version: u16, number: u16) -> Stamp
        ensures { result ≡ stamp_of_fields version number }
    {
        match (version, number) {
            (2, 2) => Stamp::Two(Profile::Large),
            (2, _) => Stamp::Two(Profile::Small),
            _ => Stamp::One,
        }
    }

    /// The profile with which the image is run: an image of version 1 is one for Small.
    pub fn profile(self) -> Profile
        ensures { result ≡ profile_of self }
    {
        match self {
            Stamp::One => Profile::Small,
            Stamp::Two(profile) => profile,
        }
    }
}
