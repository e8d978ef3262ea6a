ghost use Rattle.stl_ast.specs.NestedDeclarations.{IsSpelledByNested, AreLevelsOfNesting};

/// The nested view of a list of declarations, in which each has its components, is the list in
/// another form: the declarations of the view in the order of the text are those of the list. In
/// the view of an outline, as each `Declarations` is one, the components of a structure stand one
/// level deeper than the structure, and no other declaration has components.
pub fn law_of_components()
    ensures spelled { IsSpelledByNested }
    ensures levels { AreLevelsOfNesting }
{}
