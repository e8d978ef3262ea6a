ghost use Rattle.print_laws.specs.PrintedTree.{ArePrintedSourcesRead};

use crate::reading::law_of_printed_tree;
use crate::standing::law_of_printed_tokens;

/// The text of a printable tree is read back as that tree: it has tokens, and these are read as it.
pub fn law_of_printed_source()
    ensures { ArePrintedSourcesRead }
{
    law_of_printed_tokens();
    law_of_printed_tree();
}
