ghost use Rattle.one_text.specs.OneText.{StatementsHaveOneText, StepsOfOneFate, QueriesHaveOneCause, QueriesHaveOneText, SelectsHaveOneText};
ghost use Rattle.one_text.specs.Lasting.{ShortScriptsHaveOneText, NumbersLast};
ghost use Rattle.one_text.specs.Movers.{JobsHaveOneText, MoversHaveOneText};
ghost use Rattle.one_text.specs.Scripts.{ScriptsHaveOneText};

use query_laws::order_of_rows_is_free;
use query_order::one_printed_list;
use sql_reader::one_reading;

/// A statement has one text: over one state, with the same load files and the same served forms, two steps of a statement text
/// print the same bytes, and both are refused for the same cause or neither is. Left out are the functions of several jobs
/// (`HasJobs`): whether they are refused depends on the numbers that their jobs draw, which the storage decides. Where such a
/// one is refused in both steps or in neither, they too print the same bytes.
pub fn a_statement_has_one_text()
    ensures statements { StatementsHaveOneText }
    ensures one_fate { StepsOfOneFate }
{
    one_reading();
    one_printed_list();
}

/// A query has one text: over two states that no statement tells apart a SELECT is refused in both for the same cause, or in
/// neither, and then prints the same bytes. What the two may differ in, the order of rows, the rows deleted up to the ancient
/// history mark and the numbers of the storage, isn't seen in an answer.
pub fn a_query_has_one_text()
    ensures refused { QueriesHaveOneCause }
    ensures printed { QueriesHaveOneText }
    ensures steps { SelectsHaveOneText }
{
    one_reading();
    order_of_rows_is_free();
}

/// A script has one text, where it leaves the mover alone: two runs of it, over states that are the same but for the numbers of the
/// storage, print the same bytes, some statement is refused in both or in none, and both leave the same database. That holds for
/// scripts without functions of several jobs and without `\step`, run without steps of the mover behind the statements, as long as the numbers
/// that files are called by aren't spent.
pub fn a_script_has_one_text()
    ensures { ScriptsHaveOneText }
{
    one_reading();
    one_printed_list();
}

/// The numbers that files are called by last: from a state that has numbers for a script, as that over an empty folder has, a script of as
/// many statements as one may have leaves some, run without steps of the mover behind its statements, whatever its events draw.
pub fn numbers_last()
    ensures { NumbersLast }
{}

/// So there a script that leaves the mover alone has one text, whatever its events draw.
pub fn a_short_script_has_one_text()
    ensures { ShortScriptsHaveOneText }
{
    one_reading();
    one_printed_list();
}

/// Whatever the mover does, a script has one text: two runs of it, each with any number of the mover's steps behind the statements, over
/// states that are the same but for what the mover makes of projections, print the same, and some statement is refused in both or in
/// none, as long as numbers are left. That holds for scripts that don't ask which epoch is the last good one, or make it the ancient history mark,
/// or which projection serves, and drop none (`one_text`); and where no statement is refused, MOVEOUT, MERGEOUT, PURGE_TABLE and REFRESH may
/// stand in them, too (`jobs`).
pub fn the_mover_changes_no_text()
    ensures one_text { MoversHaveOneText }
    ensures jobs { JobsHaveOneText }
{
    one_reading();
    one_printed_list();
}
