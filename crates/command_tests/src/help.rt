//! What the launcher answers to a request for help is what `clap` makes of the program's words.
use cue_command::store;
use std::test::Fail;

/// What `bin/cuestore --help` prints.
const HELP: &str = "Merges configuration that several teams write, without a leader

Usage: cuestore <COMMAND>

Commands:
  export  Prints the JSON, or the conflicts, or what is incomplete
  print   Prints all that is known, as one text
  report  Prints the conflicts, and then what is incomplete
  state   Writes the state bytes to standard output
  merge   Writes the state bytes to the file OUT
  serve   Serves COUNT connections on a port, then prints as export
  push    Sends the inputs to the site on a port, then prints its export
  loop    Serves a new site and pushes to it, in one process
";

#[test]
fn the_help_is_that_of_the_words(rt: HostRuntime) -> Result<(), Fail> {
    let mut store = store(rt.alloc())?;
    let help = store.render_help()?;
    assert!(rt; help.as_str() == HELP, "{help}");
    Ok(())
}
