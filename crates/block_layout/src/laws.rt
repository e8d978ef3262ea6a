//! Laws of the definitions that contracts cite, each of them a function with an empty body.

ghost use Rattle.std.specs.Prelude.{◌≡◌, ◌<◌, ℕ, List};
ghost use Rattle.block_layout.specs.ListedParameters.{LengthStays, OffsetsStay};
ghost use Rattle.block_layout.specs.Places.{AreOffsets, FindsSound, siblings, sound_offsets};
ghost use Rattle.block_layout.specs.RebuiltBytes.{AreRebuilt};
ghost use Rattle.block_layout.specs.Sizes.{components_end, largest_size};
ghost use Rattle.block_layout.specs.Sums.{LeadsToOne, OffsetsAreSums};
ghost use Rattle.block_layout.specs.declared.cells.Cell.{Cell};

/// The offsets of a structure's sound components are the least places, each at or past the end of
/// the component before it, that meet their alignments, and no other offsets are. The components
/// stand at this level, and the first of the cells is the first of them; they end below the number
/// beyond which no place counts. A sound component that is found by its name, at whatever depth of
/// a path, is one of these with its offset.
pub fn law_of_offsets()
    ensures are { (level : ℕ) (cells : List Cell) → components_end level 0 cells < largest_size
        → AreOffsets 0 (siblings level cells) (sound_offsets level cells) }
    ensures alone { (level : ℕ) (cells : List Cell) (places : List ℕ)
        → components_end level 0 cells < largest_size
        → AreOffsets 0 (siblings level cells) places
        → places ≡ sound_offsets level cells }
    ensures found { FindsSound }
{}

/// The place that `Layouts::offset` gives is the sum of the least places along its path: at each
/// name that of the component among its siblings, in structures and data types at whatever depth,
/// and at each index that of the element, the elements of lower indices before it. No path leads to
/// two places.
pub fn law_of_paths()
    ensures sums { OffsetsAreSums }
    ensures alone { LeadsToOne }
{}

/// Parameters that are declared again with other names and types of the same sizes lie where they
/// lay, whatever stands behind them, and an array of bytes up to the same end makes the instance as
/// long as it was.
pub fn law_of_listed_parameters()
    ensures offsets { OffsetsStay }
    ensures length { LengthStays }
{}

/// Bytes are there again where each write writes what they have, and each bit that is set is
/// reached by one.
pub fn law_of_rebuilt_bytes()
    ensures { AreRebuilt }
{}
