// The table of children, and what outlines, steps, documents and their trees have to do with each other, for whatever
// tokens.
ghost use Rattle.syncml_shape.specs.Table.{RowsAreTable};
ghost use Rattle.syncml_shape.specs.Laws.{OneTree, FitsInOrder, DocumentInOrder, FitsInAnyOrder, FitsMeta};
ghost use Rattle.syncml_shape.specs.Laws.{FaultsHaveNoShape, FitsIsStepped, ClosingIsFit, ViableIsOpen, ViableIsTaken};
ghost use Rattle.syncml_shape.specs.Laws.{JudgedIsComputed};

/// Law: the rows that the code goes by are those of the grammar's table, for each element.
pub fn rows_are_table()
    ensures { RowsAreTable }
{}

/// Law: tokens spell one tree at most.
pub fn one_tree()
    ensures { OneTree }
{}

/// Law: what fits an element with rows is children that follow the rows, each with what fits it, without text between
/// them.
pub fn fits_in_order()
    ensures { FitsInOrder }
{}

/// Law: a document is one SyncML, without text beside it.
pub fn document_in_order()
    ensures { DocumentInOrder }
{}

/// Law: what fits a MetInf is children of a Meta in any order, no two of one element, without text between them.
pub fn fits_in_any_order()
    ensures { FitsInAnyOrder }
{}

/// Law: what fits a Meta is what fits a MetInf, or one MetInf that holds it.
pub fn fits_meta()
    ensures { FitsMeta }
{}

/// Law: no document has a tag that is refused for its name and its parent's.
pub fn faults_have_no_shape()
    ensures { FaultsHaveNoShape }
{}

/// Law: a tree that fits an open element is stepped over, with the END behind it, and ends that element.
pub fn fits_is_stepped()
    ensures { FitsIsStepped }
{}

/// Law: steps that end all that is open are over trees that fit, one for each open element.
pub fn closing_is_fit()
    ensures { ClosingIsFit }
{}

/// Law: tokens begin a document exactly where the steps over them leave something open.
pub fn viable_is_open()
    ensures { ViableIsOpen }
{}

/// Law: tokens begin a document exactly where an outline takes them all.
pub fn viable_is_taken()
    ensures { ViableIsTaken }
{}

/// Law: of each list of tokens exactly one thing is judged, and it is the computed one.
pub fn judged_is_computed()
    ensures { JudgedIsComputed }
{}
