//! What help says is what `clap` makes of the program's arguments.
use cue_layers_command::layers;
use std::test::Fail;

/// What `bin/cuelayers --help` prints.
const HELP: &str = "Configuration in layers, which their owners replace, and policies

Usage: cuelayers <COMMAND>

Commands:
  put     Replaces what NAME says by the files, and prints the revision
  remove  Removes what NAME says, and prints the revision
  try     Prints the report lines that a put would add, and writes nothing
  merge   Joins the files, and writes the map to the file OUT
  export  Prints the JSON of the view, or the conflicts, or what is incomplete
  report  Prints the conflicts of the view, and then what is incomplete
  print   Prints all that the view says, as one text
  list    Prints a line for each layer and policy: name, revision, rows
  show    Prints what NAME says, as one text
  why     Prints which layers and policies make what is reported at PATH
";

#[test]
fn the_help_is_that_of_the_arguments(rt: HostRuntime) -> Result<(), Fail> {
    let mut layers = layers(rt.alloc())?;
    let help = layers.render_help()?;
    assert!(rt; help.as_str() == HELP, "{help}");
    Ok(())
}
