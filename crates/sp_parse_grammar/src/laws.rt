//! The laws of grammars as tables, and those of C90's grammar (C90 6.3 to 6.7), as contracts over
//! any table and over any trees.
ghost use Rattle.std.specs.Prelude.{List, ⊤};
ghost use Rattle.sp_parse_grammar.specs.Table.{Symbols, Table};
ghost use Rattle.sp_parse_grammar.specs.Checked.{Checked};
ghost use Rattle.sp_parse_grammar.specs.Laws.{IsDecisive, IsDetermined, IsKeptThroughout, IsLawful};
ghost use Rattle.sp_parse_grammar.specs.CLaws.{AreFailing, AreLongest, AreSettled, IsChecked, LeavesEnd};
ghost use Rattle.sp_parse_grammar.specs.CTable.{c90, c_symbols};
ghost use Rattle.sp_parse_grammar.specs.CTrees.{Trees};
ghost use Rattle.sp_parse_grammar.specs.NoTrees.{no_trees};

use std::marker::Brand;

/// A grammar as a table (specs/Table.antt), a fact that may hold of its answers and their tokens,
/// and some of its asks. A law over a type of this kind holds of any of them: where it is called
/// with `Brand`, the caller picks them.
pub trait AnyTable {
    ghost symbols: { Symbols };

    ghost table: { Table symbols };

    ghost fact: { (n : symbols.Ask) → List symbols.Token → symbols.Answer n → Type 0 };

    ghost covers: { symbols.Ask → Type 0 };
}

impl AnyTable for Brand {
    ghost symbols = { c_symbols no_trees };

    ghost table = { c90 no_trees };

    ghost fact = { λ n tokens a. ⊤ };

    ghost covers = { LeavesEnd };
}

/// The laws of any grammar as a table. Each ask has one reading or one fault from the same tokens,
/// and never both. Where the table is checked (`Checked`), what is read is the longest whole, at a
/// fault stands the failing token, and where a depth is passed each whole that goes on is past it,
/// and none of this hangs on what stands behind that token; and where asks rank and take no last
/// token (`Ends`), any tokens with a last one are read or fail. A fact that each production keeps
/// holds of all that is read. The call does nothing.
pub fn any_table_is_lawful<T: AnyTable>()
    ensures determined { IsDetermined T.table }
    ensures lawful { Checked T.table → IsLawful T.table }
    ensures kept { IsKeptThroughout T.table T.fact }
    ensures decided { Checked T.table → IsDecisive T.table T.covers }
{}

/// What a parser makes of what it reads (specs/CTrees.antt). A law over a type of this kind holds
/// of any trees: where it is called with `Brand`, the caller picks them.
pub trait AnyTrees {
    ghost trees: { Trees };
}

impl AnyTrees for Brand {
    ghost trees = { no_trees };
}

/// The laws of C90's grammar, over any trees. The table keeps what is checked of a table, so each
/// law of a table holds of it. From any tokens with the end of the text last, and there alone, each
/// ask is read or fails, and not both, with one answer or one failing token; a whole unit is read
/// up to its last token. What is read is the longest whole, and where an ask fails some whole goes
/// on up to that token and none with it. The call does nothing.
pub fn any_tokens_are_settled<T: AnyTrees>()
    ensures checked { IsChecked T.trees }
    ensures settled { AreSettled T.trees }
    ensures longest { AreLongest T.trees }
    ensures failing { AreFailing T.trees }
{}
