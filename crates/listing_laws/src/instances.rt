ghost use Rattle.listing_laws.specs.Instances.{
  AreDataBlocksAgain,
  AreInstancesAgain,
  AreInstancesLong,
  AreListedSettingsRight,
};

/// The instances of function blocks in an accepted source's program are as long in its listing as
/// they were, and not too long (`long`). Where no block of the listing breaks a rule as a whole,
/// its program has each again, with its number, its function block and its bytes (`again`).
pub fn law_of_instances()
    ensures long { AreInstancesLong }
    ensures again { AreInstancesAgain }
{}

/// The settings in the listing of an accepted source's program break no rule 20, 41 or 42, where no
/// block of the listing breaks a rule as a whole.
pub fn law_of_listed_settings()
    ensures { AreListedSettingsRight }
{}

/// Where no block of the listing of an accepted source's program breaks a rule as a whole, its
/// program has the data blocks of that program, in their order.
pub fn law_of_listed_data_blocks()
    ensures { AreDataBlocksAgain }
{}
