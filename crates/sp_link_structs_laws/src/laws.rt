//! The laws.
ghost use Rattle.sp_link_structs_laws.specs.Tables.{TablesStay, LinkedTables};

use sp_link_structs::matching_laws;

/// The structs of a program form a table where those of each unit do.
pub fn table_laws()
    ensures stay { TablesStay }
    ensures linked { LinkedTables }
{
    matching_laws();
}
