//! What holds of rows in the order in which their classes were defined, and of which classes have a file.

ghost use Rattle.cl_hierarchy.specs.RowTables.{RowsGrow, RowsMakeLineages, RowsStandInOrder};
ghost use Rattle.cl_hierarchy.specs.Spelling.{FileIsSpelled};

/// A row that may stand after such rows may join them.
pub fn rows_grow()
    ensures { RowsGrow }
{}

/// Each row stands after those of its direct supertypes.
pub fn rows_stand_in_order()
    ensures { RowsStandInOrder }
{}

/// Where a content is told, the tree of each class is its lineage (JVMS SE 8, 5.3.5).
pub fn rows_make_lineages()
    ensures { RowsMakeLineages }
{}

/// In a content of bytes a class has a file exactly where it is at home and its bytes spell that file by the grammar
/// (JVMS SE 8, 4.1; 5.3.5, step 2).
pub fn file_is_spelled()
    ensures { FileIsSpelled }
{}
