ghost use Rattle.std.specs.Prelude.{◌≡◌, ℕ, List, Option, IfOk, IfErr, Ok, Err};
ghost use Rattle.cue_program.specs.Files.{texts_of_files};
ghost use Rattle.cue_wire.specs.Connections.{moment_of};
ghost use Rattle.cue_command.specs.Networks.{IsNetworkEndedBy, reach_of, stop_by};
ghost use Rattle.cue_command.specs.Runs.{run_world, IsAnswerTo, IsStopTo};
ghost use Rattle.cue_command.specs.Words.{looping, pushing, serving};

use cue_net::{NetError, Network, loop_for, push_for, serve_for};
use cue_program::{Answer, FileSystem, RunError, requests_for};
use std::alloc::Global;
use std::io::Read;

/// Serves connections, and answers the export of their site, as it is printed.
pub fn serve_port<H>(rt: &H, port: u16, count: u16) -> Result<Answer, RunError>
where
    H: AllocGlobal + FileSystem + Network,
    ensures answer { (known : Option (List ℕ)) → IfOk result (IsAnswerTo (serving port count)
        (run_world H.held H.makes (reach_of (H.opens rt.now) (H.lets_in rt.now) (H.reaches rt.now)
        (H.joins rt.now) (H.fails rt.now) (moment_of H.Input.given H.Input.to_come H.Output.taken
        H.Input.called H.Output.called H.Input.failed H.Output.failed))
        rt.now rt.now known)) }
    ensures stop { (known : Option (List ℕ)) → IfErr result (IsStopTo (serving port count)
        (run_world H.held H.makes (reach_of (H.opens rt.now) (H.lets_in rt.now) (H.reaches rt.now)
        (H.joins rt.now) (H.fails rt.now) (moment_of H.Input.given H.Input.to_come H.Output.taken
        H.Input.called H.Output.called H.Input.failed H.Output.failed))
        rt.now rt.now known)) }
{
    end_run(serve_for(rt, port, count))
}

/// Sends the inputs to the site on a port, and answers its export, as it is printed.
pub fn push_inputs<H, R: Read>(
    rt: &H,
    port: u16,
    files: &[&str],
    input: &mut R,
) -> Result<Answer, RunError>
where
    H: AllocGlobal + FileSystem + Network,
    ensures answer { IfOk result (IsAnswerTo (pushing port (texts_of_files files.now))
        (run_world H.held H.makes (reach_of (H.opens rt.now) (H.lets_in rt.now) (H.reaches rt.now)
        (H.joins rt.now) (H.fails rt.now) (moment_of H.Input.given H.Input.to_come H.Output.taken
        H.Input.called H.Output.called H.Input.failed H.Output.failed))
        rt.now rt.now (R.remaining input.old))) }
    ensures stop { IfErr result (IsStopTo (pushing port (texts_of_files files.now))
        (run_world H.held H.makes (reach_of (H.opens rt.now) (H.lets_in rt.now) (H.reaches rt.now)
        (H.joins rt.now) (H.fails rt.now) (moment_of H.Input.given H.Input.to_come H.Output.taken
        H.Input.called H.Output.called H.Input.failed H.Output.failed))
        rt.now rt.now (R.remaining input.old))) }
{
    let requests = requests_for(rt, files, input)?;
    end_run(push_for(rt, port, &requests))
}

/// Sends the inputs to a new site over a connection whose ends are both here, and answers its
/// export, as it is printed.
pub fn loop_inputs<H, R: Read>(rt: &H, files: &[&str], input: &mut R) -> Result<Answer, RunError>
where
    H: AllocGlobal + FileSystem + Network,
    ensures answer { IfOk result (IsAnswerTo (looping (texts_of_files files.now))
        (run_world H.held H.makes (reach_of (H.opens rt.now) (H.lets_in rt.now) (H.reaches rt.now)
        (H.joins rt.now) (H.fails rt.now) (moment_of H.Input.given H.Input.to_come H.Output.taken
        H.Input.called H.Output.called H.Input.failed H.Output.failed))
        rt.now rt.now (R.remaining input.old))) }
    ensures stop { IfErr result (IsStopTo (looping (texts_of_files files.now))
        (run_world H.held H.makes (reach_of (H.opens rt.now) (H.lets_in rt.now) (H.reaches rt.now)
        (H.joins rt.now) (H.fails rt.now) (moment_of H.Input.given H.Input.to_come H.Output.taken
        H.Input.called H.Output.called H.Input.failed H.Output.failed))
        rt.now rt.now (R.remaining input.old))) }
{
    let requests = requests_for(rt, files, input)?;
    end_run(loop_for(rt, &requests))
}

/// What a run comes to where a word over a network came to this.
fn end_run(came: Result<Answer, NetError>) -> Result<Answer, RunError>
    ensures answer { IfOk result (λ answer. came ≡ Ok answer) }
    ensures stop { IfErr result (IsNetworkEndedBy (λ halt. came ≡ Err halt)) }
{
    match came {
        Ok(answer) => Ok(answer),
        Err(halt) => Err(stop_of(halt)),
    }
}

/// What stops the run where this ends a word over a network.
fn stop_of(halt: NetError) -> RunError
    ensures { result ≡ stop_by halt }
{
    match halt {
        NetError::Device => RunError::Device,
        NetError::Refused(kind) | NetError::RefusedExport(kind) => RunError::Refused(kind),
        NetError::RefusedInput(why, number) => RunError::RefusedInput(why, number),
    }
}
