// Faults at each read and each write in turn, and calls of other functions than `run`. The rows of
// `worked_rows` tell of the commands.
mod clip_file;
mod endpoint_rows;
mod fault_rows;
mod finish_rows;
mod places;
mod selftest_rows;
mod word_rows;
mod written_out;

use command_rows::what_is_left;
use std::alloc::Global;
use std::process::Abort;
use std::test::Fail;

// A row, of which the first line is the name.
fn row_holds(rt: &impl Abort, alloc: Global, row: &str) -> Result<(), Fail> {
    let Some((lines, leaves)) = row.split_once("\nleaves ") else {
        return Err(Fail::new("a row does not say what it leaves"));
    };
    let (name, _) = lines.split_once('\n').unwrap_or((lines, ""));
    let told = what_is_left(alloc, lines).map_err(Fail::new)?;
    assert_eq!(rt; told.as_str(), leaves, "{name}");
    Ok(())
}
